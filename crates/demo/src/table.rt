// One line of text a block: its bytes, and zeros after them. Proved once for every card.
ghost use Rattle.std.specs.Prelude.{◌≡◌, ℕ, take, codes, IsUtf8, MatchOption};
ghost use Rattle.cards.specs.Answers.{answer, Written};
ghost use Rattle.cards.specs.Blocks.{content};
ghost use Rattle.demo.specs.Lines.{Ends};

use cards::card::Card;
use cards::content::content_of;
use cards::fault::Fault;

// Writes the text to block b.
pub fn save<C: Card>(card: &mut C, b: usize, text: &str) -> Result<(), Fault>
    ensures value { result ≡ answer (C.meaning card.old).size b 512 }
    ensures card { Written result (C.meaning card.old) b (content text.now) (C.meaning card.new) }
{
    card.write(b, &content_of(text.as_bytes()))
}

// How many bytes come before the first zero.
fn text_length(block: &[u8]) -> usize
    ensures { Ends block.now result }
{
    block
        .iter()
        .position(|byte| *byte == 0)
        .unwrap_or(block.len())
}

// The line of text in a block, if it is text.
pub fn line_in(block: &[u8]) -> Option<&str>
    ensures { (n : ℕ) × Ends block.now n × MatchOption result (¬ IsUtf8 (take n block.now)) (λ line. line.now ≡ take n block.now) }
{
    std::str::from_utf8(&block[..text_length(block)]).ok()
}

// The line of text in a block, or words that say that it has none.
pub fn text_of(block: &[u8]) -> &str
    ensures { (n : ℕ) × Ends block.now n × (IsUtf8 (take n block.now) → result.now ≡ take n block.now) × (¬ IsUtf8 (take n block.now) → result.now ≡ codes "no text") }
{
    line_in(block).unwrap_or("no text")
}
