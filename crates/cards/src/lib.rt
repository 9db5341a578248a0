// Cards: storage of a fixed number of 512-byte blocks that may lose power at any time.
#![tactic(auto)]

mod blocks;
pub mod card;
pub mod content;
pub mod fault;
pub mod lent;
mod place;
pub mod plain;
pub mod shelf;
pub mod write_back;
