// The entries of a volume's tables, and the word that each packs to.
ghost use Rattle.std.specs.Prelude.{◌≡◌, ℕ, ◌^◌, ◌<◌, Some, Option};
ghost use Rattle.tables.specs.Entries.{block_word, block_read, BlockValid, count_word, count_read, CountValid, fingerprint_word, fingerprint_read, FingerprintValid, blank_or, blank_or_read, BlankOrValid, whole_word, whole_read, WholeValid};
ghost use Rattle.std.proofs.Common.{rules};

use crate::word::{BLANK, Kind, Word};

// The most that a count can say.
pub const COUNT_CEILING: u16 = 4095;

// The number of a physical block: one of the blocks in which a volume keeps contents.
#[derive(Clone, Copy, PartialEq, Eq, Debug)]
pub struct PhysicalBlock {
    pub number: u16,
}

// How many links and prints name a physical block, as a table has it: 0 to 4,095.
#[derive(Clone, Copy, PartialEq, Eq, Debug)]
pub struct Count {
    pub number: u16,
}

// The fingerprint of a physical block's content. It has 30 bits; of a greater value the low 30 are packed.
#[derive(Clone, Copy, PartialEq, Eq, Debug)]
pub struct Print {
    pub value: u32,
}

// An entry of a table, which a word stands for.
pub trait Entry: Sized {
    // The word that the entry packs to.
    ghost packed: { Self → ℕ };

    // The entry that a word stands for in a volume with this number of physical blocks; none for a bad word.
    ghost reads: { ℕ → ℕ → Option Self };

    // Whether the entry may stand in a table of a volume with this number of physical blocks.
    ghost valid: { ℕ → Self → Type 0 };

    // The word of the entry.
    fn pack(&self) -> Word
        ensures { result.bits ≡ packed self.now };

    // The entry of the word, in a volume with `physical` physical blocks; none for a bad word.
    fn unpack(word: Word, physical: u16) -> Option<Self>
        ensures { result ≡ reads physical word.bits };

    // A valid entry packs to 32 bits, and unpacks to itself.
    ghost fits: { (p : ℕ) (e : Self) → valid p e → packed e < 2 ^ 32 };

    ghost unpacks: { (p : ℕ) (e : Self) → valid p e → reads p (packed e) ≡ Some e };

    // A word that is accepted stands for a valid entry, which packs to the word.
    ghost accepts: { (p w : ℕ) (e : Self) → w < 2 ^ 32 → reads p w ≡ Some e → valid p e };

    ghost packs: { (p w : ℕ) (e : Self) → w < 2 ^ 32 → reads p w ≡ Some e → packed e ≡ w };
}

// An entry that never packs to the zero word: that word can then say that there is none.
pub trait NeverBlank: Entry {
    ghost never_blank: { (e : Self) → 0 < Self.packed e };
}

// The three entries that follow differ in their kind and their bound, and a print in its number; `Word::new` and
// `Word::value_if` are what they share.

// A link: the number of a physical block.
impl Entry for PhysicalBlock {
    ghost packed = { block_word };

    ghost reads = { block_read };

    ghost valid = { BlockValid };

    ghost fits = { Prim.search rules };

    ghost unpacks = { Prim.search rules };

    ghost accepts = { Prim.search rules };

    ghost packs = { Prim.search rules };

    fn pack(&self) -> Word {
        Word::new(Kind::Link, u32::from(self.number))
    }

    fn unpack(word: Word, physical: u16) -> Option<PhysicalBlock> {
        let number = u16::try_from(word.value_if(Kind::Link)?).ok()?;
        (number < physical).then_some(PhysicalBlock { number })
    }
}

impl NeverBlank for PhysicalBlock {
    ghost never_blank = { Prim.search rules };
}

impl Entry for Count {
    ghost packed = { count_word };

    ghost reads = { count_read };

    ghost valid = { CountValid };

    ghost fits = { Prim.search rules };

    ghost unpacks = { Prim.search rules };

    ghost accepts = { Prim.search rules };

    ghost packs = { Prim.search rules };

    fn pack(&self) -> Word {
        Word::new(Kind::Count, u32::from(self.number))
    }

    fn unpack(word: Word, _physical: u16) -> Option<Count> {
        let number = u16::try_from(word.value_if(Kind::Count)?).ok()?;
        (number <= COUNT_CEILING).then_some(Count { number })
    }
}

impl Entry for Print {
    ghost packed = { fingerprint_word };

    ghost reads = { fingerprint_read };

    ghost valid = { FingerprintValid };

    ghost fits = { Prim.search rules };

    ghost unpacks = { Prim.search rules };

    ghost accepts = { Prim.search rules };

    ghost packs = { Prim.search rules };

    fn pack(&self) -> Word {
        Word::new(Kind::Print, self.value)
    }

    fn unpack(word: Word, _physical: u16) -> Option<Print> {
        word.value_if(Kind::Print).map(|value| Print { value })
    }
}

impl NeverBlank for Print {
    ghost never_blank = { Prim.search rules };
}

// An entry or none, which the zero word stands for: the link of a logical block, or the print of a physical block.
impl<E: NeverBlank> Entry for Option<E> {
    ghost packed = { blank_or E.packed };

    ghost reads = { blank_or_read E.reads };

    ghost valid = { BlankOrValid E.valid };

    ghost fits = { Prim.search rules };

    ghost unpacks = { Prim.search rules };

    ghost accepts = { Prim.search rules };

    ghost packs = { Prim.search rules };

    fn pack(&self) -> Word {
        match self {
            Some(entry) => entry.pack(),
            None => BLANK,
        }
    }

    fn unpack(word: Word, physical: u16) -> Option<Option<E>> {
        if word.is_blank() {
            Some(None)
        } else {
            E::unpack(word, physical).map(Some)
        }
    }
}

// A word of the header: any word stands for itself.
impl Entry for Word {
    ghost packed = { whole_word };

    ghost reads = { whole_read };

    ghost valid = { WholeValid };

    ghost fits = { Prim.search rules };

    ghost unpacks = { Prim.search rules };

    ghost accepts = { Prim.search rules };

    ghost packs = { Prim.search rules };

    fn pack(&self) -> Word {
        *self
    }

    fn unpack(word: Word, _physical: u16) -> Option<Word> {
        Some(word)
    }
}
