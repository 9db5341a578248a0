// Fingerprints of lines of text. Each line of the input is a published hash, in hexadecimal, or a `-`, and a text. Printed
// are the FNV-1a hash of the text, and the print words of the block that holds the text, under rule 1 and under rule 2; at
// the end, how many of the published hashes were found.
#![tactic(auto)]

ghost use Rattle.std.specs.Prelude.{◌≡◌, Some};
ghost use Rattle.cards.specs.Blocks.{content};
ghost use Rattle.tables.specs.Entries.{print_of, print_word};

use cards::content::content_of;
use std::io;
use tables::entry::Entry;
use tables::fnv::{Fnv1a, fnv_1a};
use tables::rule::Rule;
use tables::word::Word;
use tables::word_sum::WordSum;

// The word in a print table for a block that holds this text.
fn print_word<R: Rule>(rule: &R, text: &str) -> Word
    ensures { result.bits ≡ print_word (Some (print_of (R.print rule.now (content text.now)))) }
{
    Some(rule.fingerprint(&content_of(text.as_bytes()))).pack()
}

fn main(rt: HostRuntime) -> io::Result<()> {
    // Two counts beside a loop that prints and may fail: a fold would carry both through each step, and be longer.
    let mut published: u64 = 0;
    let mut found: u64 = 0;
    for line in rt.lines(rt.alloc()) {
        let line = line?;
        let Some((given, text)) = line.split_once(' ') else {
            continue;
        };
        let hash = fnv_1a(text.as_bytes());
        let fnv = print_word(&Fnv1a, text).bits;
        let sum = print_word(&WordSum, text).bits;
        println!(rt; "{hash:08x} {fnv:08x} {sum:08x} {text}")?;
        if let Ok(given) = u32::from_str_radix(given, 16) {
            published = published.saturating_add(1);
            if given == hash {
                found = found.saturating_add(1);
            }
        }
    }
    println!(rt; "{found} of {published} published hashes")
}
