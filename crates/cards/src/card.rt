// What a card is: one interface with a meaning. Code above it is proved against the meaning alone, once, for every
// make of card.
ghost use Rattle.std.specs.Prelude.{◌≡◌, ℕ, length, is_ok, if◌then◌else◌};
ghost use Rattle.cards.specs.Answers.{answer, Written};
ghost use Rattle.cards.specs.Lenders.{Names};
ghost use Rattle.cards.specs.Meanings.{Content, Meaning, Sound, Flushed, Lost};

use crate::fault::Fault;

// The bytes of a block.
pub const BLOCK_SIZE: usize = 512;

// The most blocks that a card shows.
pub const MOST_BLOCKS: usize = 65535;

pub trait Card {
    // The number of blocks, their present contents and their contents in doubt.
    ghost meaning: { Self → Meaning };

    // The memory that was lent to the card.
    ghost lenders: { Self → Names };

    // What a write of these bytes to block b, a barrier, and a loss of power under a pattern make of a card of this make,
    // exactly. The contract of what stands before a card says by these which calls reach the card, and in which order.
    ghost writes: { Self → ℕ → Content → Self → Type 0 };

    ghost flushes: { Self → Self → Type 0 };

    ghost loses: { Self → ℕ → Self → Type 0 };

    // The number of blocks.
    fn blocks(&self) -> usize
        ensures { result ≡ (meaning self.now).size };

    // Fills the buffer with the present content of block b. A refusal leaves the buffer as it was.
    fn read(&self, b: usize, buffer: &mut [u8]) -> Result<(), Fault>
        ensures value { result ≡ answer (meaning self.now).size b (length buffer.old) }
        ensures buffer { buffer.new ≡ (if is_ok result then (meaning self.now).present b else buffer.old) };

    // Makes the bytes the present content of block b. That the lenders stay ties the card after the call to the card before it,
    // so it is a clause here and of whatever passes the call on, and in no type.
    fn write(&mut self, b: usize, bytes: &[u8]) -> Result<(), Fault>
        ensures value { result ≡ answer (meaning self.old).size b (length bytes.now) }
        ensures card { Written result (meaning self.old) b bytes.now (meaning self.new) }
        ensures exact { writes self.old b bytes.now self.new }
        ensures lender { lenders self.new ≡ lenders self.old };

    // Leaves only present contents in doubt, and changes none of them.
    fn barrier(&mut self)
        ensures card { Flushed (meaning self.old) (meaning self.new) }
        ensures exact { flushes self.old self.new }
        ensures lender { lenders self.new ≡ lenders self.old };

    // Loses power. The pattern stands for the chance by which each block keeps one of its contents in doubt.
    fn lose_power(&mut self, pattern: u64)
        ensures card { Lost (meaning self.old) (meaning self.new) }
        ensures exact { loses self.old pattern self.new }
        ensures lender { lenders self.new ≡ lenders self.old };

    // At most 65,535 blocks; present contents are in doubt; contents are 512 bytes.
    ghost sound: { (c : Self) → Sound (meaning c) };
}
