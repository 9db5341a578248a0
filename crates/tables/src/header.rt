// The header of a volume, in card block 0: the version, the two sizes, and the number of the fingerprint rule.
ghost use Rattle.std.specs.Prelude.{◌≡◌, true, Ok};
ghost use Rattle.std.specs.List.{AllByRecursion};
ghost use Rattle.tables.specs.Headers.{header_words, header_read};
ghost use Rattle.tables.specs.Layouts.{ValidShape};
ghost use Rattle.tables.specs.Tables.{block_of};
ghost use Rattle.tables.specs.Words.{of_kind, words};
ghost use Rattle.tables.specs.declared.word.Kind.TheVariants.{Plain};

use crate::layout::Shape;
use crate::rule::Rule;
use crate::table::{pack_block, unpack_block};
use crate::word::{BLANK, Word};
use cards::card::BLOCK_SIZE;
use cards::fault::{Fault, Layer};

// The card block that the header lies in.
pub const HEADER_BLOCK: usize = 0;

const VERSION: u32 = 1;

// The header of a volume of this shape under this rule: four plain words, and zero words after them.
pub fn pack_header<R: Rule>(shape: Shape, rule: &R) -> [u8; BLOCK_SIZE]
    ensures bytes { result ≡ block_of (header_words shape (R.id rule.now)) }
    ensures plain { AllByRecursion (λ w. of_kind Plain w ≡ true) (header_words shape (R.id rule.now)) }
    ensures back { ValidShape shape → header_read (R.id rule.now) (words result) ≡ Ok shape }
{
    let words = [
        VERSION,
        u32::from(shape.logical),
        u32::from(shape.physical),
        rule.number(),
    ];
    pack_block(&words.map(|bits| Word { bits }))
}

// The tests of an opening, in their order, each on a whole word: the version, the two sizes, this number of the rule, and
// that the words after these are zero.
fn test_header(bytes: &[u8; BLOCK_SIZE], rule: u32) -> Result<Shape, Fault>
    ensures { result ≡ header_read rule (words bytes.now) }
{
    // Any word stands for itself, whatever the number of physical blocks, so only the words after these four can be bad.
    let mut words = [BLANK; 4];
    let tail = unpack_block(bytes, HEADER_BLOCK, 0, &mut words);
    let [version, logical, physical, number] = words;
    if version.bits != VERSION {
        return Err(Fault::Version);
    }
    let shape = Shape::new(Layer::Table, logical.bits, physical.bits)?;
    if number.bits != rule {
        return Err(Fault::RuleNumber);
    }
    tail?;
    Ok(shape)
}

// The shape of the volume that the header is of, if it is a header under this rule.
pub fn unpack_header<R: Rule>(bytes: &[u8; BLOCK_SIZE], rule: &R) -> Result<Shape, Fault>
    ensures value { result ≡ header_read (R.id rule.now) (words bytes.now) }
    ensures back { (shape : Shape) → result ≡ Ok shape → ValidShape shape × (bytes.now ≡ block_of (header_words shape (R.id rule.now))) }
{
    test_header(bytes, rule.number())
}
