// Table blocks: what a card keeps about a volume. Words, the entries that they stand for, blocks of them, the header, the
// layout of a volume on a card, and fingerprint rules.
#![tactic(auto)]

pub mod cases;
pub mod entry;
pub mod fnv;
pub mod header;
pub mod layout;
pub mod rule;
pub mod stored;
pub mod table;
pub mod word;
pub mod word_sum;
