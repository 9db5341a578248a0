// A table block that outlives a loss of power, on any card and for any kind of entry. What comes to the card is what comes
// to it of a bare block: both say so by `SavedThenLost`.
ghost use Rattle.std.specs.Prelude.{◌≡◌, ◌<◌, ◌≤◌, map, length, is_ok, if◌then◌else◌, Ok};
ghost use Rattle.std.specs.Result.{result_and};
ghost use Rattle.std.specs.List.{AllByRecursion};
ghost use Rattle.cards.specs.Answers.{answer, SavedThenLost};
ghost use Rattle.tables.specs.Tables.{block_of, unpack_answer, unpacked};

use cards::card::Card;
use cards::fault::Fault;
use tables::entry::Entry;
use tables::stored::{load_entries, save_entries};

// Packs the entries to a block of the card, makes it durable, loses power, and unpacks the block again.
pub fn save_and_lose<C: Card, E: Entry + Copy>(
    card: &mut C,
    block: usize,
    physical: u16,
    entries: &[E],
    pattern: u64,
    out: &mut [E],
) -> Result<(), Fault>
    ensures value { result ≡ result_and (answer (C.meaning card.old).size block 512) (unpack_answer block (E.reads physical) (length out.old) (block_of (map E.packed entries.now))) }
    ensures entries { out.new ≡ (if is_ok (answer (C.meaning card.old).size block 512) then unpacked (E.reads physical) (block_of (map E.packed entries.now)) out.old else out.old) }
    ensures card { SavedThenLost C.writes C.flushes C.loses (answer (C.meaning card.old).size block 512) block (block_of (map E.packed entries.now)) pattern card.old card.new }
    ensures lender { C.lenders card.new ≡ C.lenders card.old }
    ensures back { block < (C.meaning card.old).size → length entries.now ≤ 128 → AllByRecursion (E.valid physical) entries.now → length out.old ≡ length entries.now → (result ≡ Ok tt) × (out.new ≡ entries.now) }
{
    save_entries(card, block, entries)?;
    card.barrier();
    card.lose_power(pattern);
    load_entries(card, block, physical, out)
}
