// Rule 2: the sum of the words, folded.
ghost use Rattle.std.specs.Prelude.{◌≡◌};
ghost use Rattle.tables.specs.Rules.{sum_number, add_word, word_sum, fold_30};
ghost use Rattle.tables.specs.Prints.{sum_below};
ghost use Rattle.std.proofs.Common.{rules};

use crate::entry::Print;
use crate::rule::{Rule, fold_hash};
use crate::word::{Word, Words};

// The sum of the words, modulo 2^32. One to three bytes at the end are no word, and left out; a block has none.
fn sum_words(bytes: &[u8]) -> u32
    ensures { result ≡ word_sum bytes.now }
{
    Words { left: bytes }.fold(
        0,
        |sum: u32, word: Word| -> u32
            ensures { result ≡ add_word sum word.bits }
        { sum.wrapping_add(word.bits) },
    )
}

// Rule 2, as a value that can be asked.
#[derive(Clone, Copy)]
pub struct WordSum;

impl Rule for WordSum {
    ghost id = { λ _. sum_number };

    ghost print = { λ _ bytes. fold_30 (word_sum bytes) };

    ghost numbered = { Prim.search rules };

    ghost small = { λ rule bytes. sum_below bytes };

    fn number(&self) -> u32 {
        2
    }

    fn fingerprint(&self, bytes: &[u8]) -> Print {
        fold_hash(sum_words(bytes))
    }
}
