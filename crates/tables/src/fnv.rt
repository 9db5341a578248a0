// Rule 1: 32-bit FNV-1a, folded.
ghost use Rattle.std.specs.Prelude.{◌≡◌};
ghost use Rattle.tables.specs.Rules.{fnv_number, fnv_1a, fold_30};
ghost use Rattle.tables.specs.Prints.{fnv_below};
ghost use Rattle.std.proofs.Common.{rules};

use crate::entry::Print;
use crate::rule::{Rule, fold_hash};

const OFFSET_BASIS: u32 = 2166136261;

const PRIME: u32 = 16777619;

// The FNV-1a hash of some bytes: each byte in turn is mixed in by exclusive or, and then multiplication. By the
// rules for this code it is a loop over the bytes.
pub fn fnv_1a(bytes: &[u8]) -> u32
    ensures { result ≡ fnv_1a bytes.now }
{
    let mut hash = OFFSET_BASIS;
    for byte in bytes {
        hash = (hash ^ u32::from(*byte)).wrapping_mul(PRIME);
    }
    hash
}

// Rule 1, as a value that can be asked.
#[derive(Clone, Copy)]
pub struct Fnv1a;

impl Rule for Fnv1a {
    ghost id = { λ _. fnv_number };

    ghost print = { λ _ bytes. fold_30 (fnv_1a bytes) };

    ghost numbered = { Prim.search rules };

    ghost small = { λ rule bytes. fnv_below bytes };

    fn number(&self) -> u32 {
        1
    }

    fn fingerprint(&self, bytes: &[u8]) -> Print {
        fold_hash(fnv_1a(bytes))
    }
}
