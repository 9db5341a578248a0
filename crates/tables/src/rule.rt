// Fingerprint rules. A rule gives each block's content a print of 30 bits; blocks with different prints differ. Code
// that needs prints is generic over the rule.
ghost use Rattle.std.specs.Prelude.{◌≡◌, ℕ, ◌^◌, ◌<◌, List};
ghost use Rattle.tables.specs.Rules.{fold_30};

use crate::entry::Print;

pub trait Rule {
    // The rule's own number, which the header keeps.
    ghost id: { Self → ℕ };

    // The value of the print of some bytes.
    ghost print: { Self → List ℕ → ℕ };

    // The rule's own number.
    fn number(&self) -> u32
        ensures { result ≡ id self.now };

    // The print of a block's bytes.
    fn fingerprint(&self, bytes: &[u8]) -> Print
        ensures { result.value ≡ print self.now bytes.now };

    // The number is the value of a plain word, and a print has 30 bits.
    ghost numbered: { (rule : Self) → id rule < 2 ^ 30 };

    ghost small: { (rule : Self) (bytes : List ℕ) → print rule bytes < 2 ^ 30 };
}

// Folds a hash of 32 bits to a print of 30: the top two bits, as a number, are mixed into the low thirty.
// The rules share no more: each has its own number and hash, and a trait between them and `Rule` would ask for both again.
pub fn fold_hash(hash: u32) -> Print
    ensures { result.value ≡ fold_30 hash }
{
    Print {
        value: (hash >> 30) ^ (hash % (1 << 30)),
    }
}
