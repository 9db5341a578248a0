// A word of a table: 32 bits, of which the top two are its kind and the low thirty its value. The zero word is blank.
ghost use Rattle.std.specs.Prelude.{◌≡◌, ◌<◌, length, MatchOption, ◌==◌};
ghost use Rattle.std.specs.Iterator.{YieldsFirstBy, item_count};
ghost use Rattle.tables.specs.Words.{kind_number, word_of, of_kind, value_of, value_if, bytes_of, words, Begins};

// What a word says: a plain number, the physical block that a logical block is linked to, a count, or a print, which is
// the fingerprint of a physical block.
#[derive(Clone, Copy, PartialEq, Eq, Debug)]
pub enum Kind {
    Plain = 0,
    Link = 1,
    Count = 2,
    Print = 3,
}

#[derive(Clone, Copy, PartialEq, Eq, Debug)]
pub struct Word {
    pub bits: u32,
}

pub const BLANK: Word = Word { bits: 0 };

// The bytes of a word.
pub const WORD_SIZE: usize = 4;

// How many values a word can have: its low 30 bits.
const VALUES: u32 = 1 << 30;

impl Kind {
    // The top two bits of a word of this kind.
    pub fn number(self) -> u32
        ensures { result ≡ kind_number self }
    {
        self as u32
    }
}

impl Word {
    // The word of this kind and value. Of a value that has more than 30 bits the low 30 count.
    pub fn new(kind: Kind, value: u32) -> Word
        ensures { result.bits ≡ word_of kind value }
    {
        Word {
            bits: kind.number() * VALUES + value % VALUES,
        }
    }

    pub fn is_blank(self) -> bool
        ensures { result ≡ (self.bits == 0) }
    {
        self == BLANK
    }

    // Whether the word is of this kind, by its top two bits.
    pub fn is(self, kind: Kind) -> bool
        ensures { result ≡ of_kind kind self.bits }
    {
        self.bits / VALUES == kind.number()
    }

    // The four bytes of the word, the lowest first.
    pub fn to_bytes(self) -> [u8; 4]
        ensures { result ≡ bytes_of self.bits }
    {
        self.bits.to_le_bytes()
    }

    // The low 30 bits.
    pub fn value(self) -> u32
        ensures { result ≡ value_of self.bits }
    {
        self.bits % VALUES
    }

    // The low 30 bits, if the word is of this kind.
    pub fn value_if(self, kind: Kind) -> Option<u32>
        ensures { result ≡ value_if kind self.bits }
    {
        self.is(kind).then_some(self.value())
    }
}

// The word in the first four bytes, the lowest first, and the bytes after them; none where there are fewer.
pub(crate) fn split_word(bytes: &[u8]) -> Option<(Word, &[u8])>
    ensures { MatchOption result (length bytes.now < 4) (λ p. Begins bytes.now p.0.bits p.1.now) }
{
    match bytes {
        [a, b, c, d, rest @ ..] => {
            let bits = u32::from_le_bytes([*a, *b, *c, *d]);
            Some((Word { bits }, rest))
        }
        _ => None,
    }
}

// The words of some bytes, in order. One to three bytes at the end are no word.
#[derive(Drop)]
pub(crate) struct Words<'a> {
    pub(crate) left: &'a [u8],
}

impl<'a> Iterator for Words<'a> {
    type Item = Word;

    ghost next_gives = { YieldsFirstBy (λ word. word.bits) (λ s. words s.left.now) };

    ghost remaining = { item_count (λ s. words s.left.now) };

    fn next(&mut self) -> Option<Word> {
        let (word, rest) = split_word(self.left)?;
        self.left = rest;
        Some(word)
    }
}
