// The places of a shelf.
ghost use Rattle.std.specs.Prelude.{◌≡◌, ◌<◌, ◌≤◌, ◌↔◌, [], ◌∷◌, ◌++◌, length, slice_set, IfSome, IsTrue};
ghost use Rattle.cards.specs.Places.{listed};
ghost use Rattle.cards.specs.Shelves.{place_of};

use crate::card::BLOCK_SIZE;
use std::marker::Model;

// How many places a shelf has.
const PLACES: usize = 4;

// A block number and the block's bytes.
#[derive(Clone, Copy)]
pub(crate) struct Place {
    pub(crate) block: usize,
    pub(crate) bytes: [u8; BLOCK_SIZE],
}

impl Place {
    // Takes up these bytes for block b.
    fn store(&mut self, b: usize, bytes: &[u8; BLOCK_SIZE])
        ensures block { self.new.block ≡ b }
        ensures bytes { self.new.bytes ≡ bytes.now }
    {
        self.block = b;
        self.bytes = *bytes;
    }
}

// The four places, of which the first `used` are in use. By the rules for this code they are an array of records in a plain
// struct, and no vector of a library, so their count stands beside them.
#[derive(Drop)]
pub(crate) struct Places {
    all: [Place; PLACES],
    used: usize,
}

// Clauses see the places in use, each as its block number and its bytes.
impl Model for Places {
    ghost use Rattle.std.specs.Prelude.{◌≡◌, ◌≤◌, List, length, take};
    ghost use Rattle.cards.specs.Places.{listed};
    ghost use Rattle.cards.specs.Shelves.{Held};

    ghost Value = { List Held };

    ghost view = { λ p. listed (take p.used p.all) };

    ghost invariant = { λ p. (length p.all ≡ 4) × (p.used ≤ 4) };
}

impl Places {
    // None in use.
    pub(crate) fn new() -> Places
        ensures { result ≡ [] }
    {
        let empty = Place {
            block: 0,
            bytes: [0; BLOCK_SIZE],
        };
        Places {
            all: [empty; PLACES],
            used: 0,
        }
    }

    pub(crate) fn in_use(&self) -> &[Place]
        ensures { listed result.now ≡ self.now }
    {
        &self.all[..self.used]
    }

    // Which place in use holds block b, the last if there are several.
    pub(crate) fn find(&self, b: usize) -> Option<usize>
        ensures value { result ≡ place_of self.now b }
        ensures within { IfSome result (λ i. i < length self.now) }
    {
        self.in_use().iter().rposition(|place| place.block == b)
    }

    pub(crate) fn is_full(&self) -> bool
        ensures full { IsTrue result ↔ (length self.now ≡ 4) }
        ensures within { length self.now ≤ 4 }
    {
        self.used == PLACES
    }

    // Puts these bytes of block b in a place in use.
    pub(crate) fn replace(&mut self, i: usize, b: usize, bytes: &[u8; BLOCK_SIZE])
        requires { i < length self.old }
        ensures { self.new ≡ slice_set self.old i (b, bytes.now) }
    {
        prove!(i < self.used);
        self.all[i].store(b, bytes);
    }

    // Puts these bytes of block b in the next empty place.
    pub(crate) fn push(&mut self, b: usize, bytes: &[u8; BLOCK_SIZE])
        requires { length self.old < 4 }
        ensures { self.new ≡ self.old ++ (b, bytes.now) ∷ [] }
    {
        self.all[self.used].store(b, bytes);
        self.used += 1;
    }

    pub(crate) fn clear(&mut self)
        ensures { self.new ≡ [] }
    {
        self.used = 0;
    }
}
