// Table blocks and headers on a card. To save is one call of the card, and to load one of `read_block`: entries and headers
// differ in what packs and unpacks them. The clauses of a write stand apart, as at `Card::write`, since callers cite them one
// by one.
ghost use Rattle.std.specs.Prelude.{◌≡◌, ◌≤◌, map, length, is_ok, if◌then◌else◌, Ok};
ghost use Rattle.std.specs.Result.{result_and};
ghost use Rattle.std.specs.List.{AllByRecursion};
ghost use Rattle.cards.specs.Answers.{answer, Written};
ghost use Rattle.tables.specs.Headers.{header_words, header_read};
ghost use Rattle.tables.specs.Layouts.{ValidShape};
ghost use Rattle.tables.specs.Tables.{block_of, unpack_answer, unpacked};
ghost use Rattle.tables.specs.Words.{words};

use crate::entry::Entry;
use crate::header::{HEADER_BLOCK, pack_header, unpack_header};
use crate::layout::Shape;
use crate::rule::Rule;
use crate::table::{pack_block, unpack_block};
use cards::card::{BLOCK_SIZE, Card};
use cards::fault::Fault;

// The bytes of a block of the card.
fn read_block<C: Card>(card: &C, block: usize) -> Result<[u8; BLOCK_SIZE], Fault>
    ensures { result ≡ result_and (answer (C.meaning card.now).size block 512) (Ok ((C.meaning card.now).present block)) }
{
    let mut bytes = [0u8; BLOCK_SIZE];
    card.read(block, &mut bytes)?;
    Ok(bytes)
}

// Packs the first 128 entries to a block of the card.
pub fn save_entries<C: Card, E: Entry>(
    card: &mut C,
    block: usize,
    entries: &[E],
) -> Result<(), Fault>
    ensures value { result ≡ answer (C.meaning card.old).size block 512 }
    ensures card { Written result (C.meaning card.old) block (block_of (map E.packed entries.now)) (C.meaning card.new) }
    ensures exact { C.writes card.old block (block_of (map E.packed entries.now)) card.new }
    ensures lender { C.lenders card.new ≡ C.lenders card.old }
{
    card.write(block, &pack_block(entries))
}

// Unpacks a block of the card to the entries, as `unpack_block` does. If the card refuses, the entries are as they were.
pub fn load_entries<C: Card, E: Entry + Copy>(
    card: &C,
    block: usize,
    physical: u16,
    out: &mut [E],
) -> Result<(), Fault>
    ensures value { result ≡ result_and (answer (C.meaning card.now).size block 512) (unpack_answer block (E.reads physical) (length out.old) ((C.meaning card.now).present block)) }
    ensures entries { out.new ≡ (if is_ok (answer (C.meaning card.now).size block 512) then unpacked (E.reads physical) ((C.meaning card.now).present block) out.old else out.old) }
    ensures back { result ≡ Ok tt → length out.old ≤ 128 → AllByRecursion (E.valid physical) out.new × ((C.meaning card.now).present block ≡ block_of (map E.packed out.new)) }
{
    unpack_block(&read_block(card, block)?, block, physical, out)
}

// Packs the header of a volume of this shape, under this rule, to the card.
pub fn save_header<C: Card, R: Rule>(card: &mut C, shape: Shape, rule: &R) -> Result<(), Fault>
    ensures value { result ≡ answer (C.meaning card.old).size 0 512 }
    ensures card { Written result (C.meaning card.old) 0 (block_of (header_words shape (R.id rule.now))) (C.meaning card.new) }
    ensures exact { C.writes card.old 0 (block_of (header_words shape (R.id rule.now))) card.new }
    ensures lender { C.lenders card.new ≡ C.lenders card.old }
{
    card.write(HEADER_BLOCK, &pack_header(shape, rule))
}

// The shape of the volume whose header is on the card, if it is a header under this rule.
pub fn load_header<C: Card, R: Rule>(card: &C, rule: &R) -> Result<Shape, Fault>
    ensures value { result ≡ result_and (answer (C.meaning card.now).size 0 512) (header_read (R.id rule.now) (words ((C.meaning card.now).present 0))) }
    ensures back { (shape : Shape) → result ≡ Ok shape → ValidShape shape × ((C.meaning card.now).present 0 ≡ block_of (header_words shape (R.id rule.now))) }
{
    unpack_header(&read_block(card, HEADER_BLOCK)?, rule)
}
