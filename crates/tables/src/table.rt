// A table block: the words of a run of entries, and zero words after them. One text for every kind of entry.
ghost use Rattle.std.specs.Prelude.{◌≡◌, ℕ, ◌≤◌, map, length, if◌then◌else◌, Some, None, Ok, slice_set};
ghost use Rattle.std.specs.List.{AllByRecursion};
ghost use Rattle.tables.specs.Words.{words};
ghost use Rattle.tables.specs.Tables.{block_of, good_word, unless_bad, unpack_answer, Judged, on_entry, unpacked, UnpacksTo};

use crate::entry::Entry;
use crate::word::{WORD_SIZE, Word, Words};
use cards::card::BLOCK_SIZE;
use cards::fault::Fault;

// The words of a block.
pub const WORDS_PER_BLOCK: usize = BLOCK_SIZE / WORD_SIZE;

// Packs entries to a block: word i is the word of entry i, and the words after the last entry are zero. A block has 128
// words, and entries past these are left out; so that there are at most 128 is a premise of `back`, and in no type.
pub fn pack_block<E: Entry>(entries: &[E]) -> [u8; BLOCK_SIZE]
    ensures bytes { result ≡ block_of (map E.packed entries.now) }
    ensures back { (p : ℕ) → length entries.now ≤ 128 → AllByRecursion (E.valid p) entries.now → UnpacksTo (E.reads p) entries.now result }
{
    let packed = &entries[..entries.len().min(WORDS_PER_BLOCK)];
    let mut words = [[0u8; WORD_SIZE]; WORDS_PER_BLOCK];
    // Over the entries alone: the words after the last one stay zero. By number, since the proof does not see the words in a
    // loop over `words.iter_mut()` beside the entries.
    for (i, entry) in packed.iter().enumerate() {
        words[i] = entry.pack().to_bytes();
    }
    let mut block = [0u8; BLOCK_SIZE];
    block.copy_from_slice(words.as_flattened());
    block
}

// Takes up word k: as entry k, or as a zero word after the last entry. A bad word is refused, as one of this card block.
fn take_word<E: Entry + Copy>(
    word: Word,
    card_block: usize,
    k: usize,
    physical: u16,
    out: &mut [E],
) -> Result<(), Fault>
    ensures value { result ≡ unless_bad card_block (if good_word (E.reads physical) (length out.old) k word.bits then None else Some k) }
    ensures entries { out.new ≡ on_entry (E.reads physical word.bits) (slice_set out.old k) out.old }
{
    let bad = Fault::BadWord {
        block: card_block,
        word: k,
    };
    if k >= out.len() {
        return if word.is_blank() { Ok(()) } else { Err(bad) };
    }
    // By its index: what stands in a slice after a write through `get_mut` is not known to the proof.
    out[k] = E::unpack(word, physical).ok_or(bad)?;
    Ok(())
}

// Unpacks a block, which was read from this block of the card, to the entries of a volume with `physical` physical blocks.
// The words after the last entry must be zero. The first bad word is refused; the entries before it are then those that
// the words stand for, and the others are as they were. A block has 128 words, and entries past these stay as they were.
pub fn unpack_block<E: Entry + Copy>(
    bytes: &[u8; BLOCK_SIZE],
    card_block: usize,
    physical: u16,
    out: &mut [E],
) -> Result<(), Fault>
    ensures value { result ≡ unpack_answer card_block (E.reads physical) (length out.old) bytes.now }
    ensures entries { out.new ≡ unpacked (E.reads physical) bytes.now out.old }
    ensures first { Judged card_block (E.reads physical) (length out.old) (words bytes.now) result }
    ensures back { result ≡ Ok tt → length out.old ≤ 128 → AllByRecursion (E.valid physical) out.new × (bytes.now ≡ block_of (map E.packed out.new)) }
{
    for (k, word) in (Words { left: bytes }).enumerate() {
        take_word(word, card_block, k, physical, out)?;
    }
    Ok(())
}
