// A card that writes straight through to lent bytes. Nothing waits, so a loss of power changes nothing.
// Both makes over lent bytes write out `new`, `blocks`, `read` and `write`, here for a block's one place, there for the fresh one of
// its two. What they share is in blocks.rt; one type with the number of copies as a parameter would carry that number
// through every fact about either.
ghost use Rattle.std.specs.Prelude.{◌≡◌};
ghost use Rattle.cards.specs.Lenders.{loan};
ghost use Rattle.cards.specs.PlainCards.{plain, plain_write};
ghost use Rattle.cards.specs.SoundCards.{plain_sound};

use crate::blocks::{admit, block_at, count, put_block};
use crate::card::{BLOCK_SIZE, Card};
use crate::fault::Fault;

#[derive(Drop)]
pub struct PlainCard<'a> {
    bytes: &'a mut [u8],
}

impl<'a> PlainCard<'a> {
    // A card over the lent bytes.
    pub fn new(bytes: &'a mut [u8]) -> PlainCard<'a>
        ensures exact { result.bytes.now ≡ bytes.old }
        ensures lender { loan result.bytes ≡ loan bytes.entry }
    {
        PlainCard { bytes }
    }
}

impl Card for PlainCard<'_> {
    ghost meaning = { λ c. plain c.bytes.now };

    ghost sound = { λ c. plain_sound c.bytes.now };

    ghost lenders = { λ c. loan c.bytes };

    ghost writes = { λ c b x d. d.bytes.now ≡ plain_write c.bytes.now b x };

    ghost flushes = { λ c d. d.bytes.now ≡ c.bytes.now };

    ghost loses = { λ c _ d. d.bytes.now ≡ c.bytes.now };

    fn blocks(&self) -> usize {
        count(self.bytes.len(), BLOCK_SIZE)
    }

    fn read(&self, b: usize, buffer: &mut [u8]) -> Result<(), Fault> {
        admit(self.blocks(), b, buffer)?;
        buffer.copy_from_slice(block_at(self.bytes, b));
        Ok(())
    }

    fn write(&mut self, b: usize, bytes: &[u8]) -> Result<(), Fault> {
        // Of this card: `self.blocks()` would ask a card that is lent.
        let block = admit((*self).blocks(), b, bytes)?;
        put_block(self.bytes, b, block);
        Ok(())
    }

    fn barrier(&mut self) {}

    fn lose_power(&mut self, _pattern: u64) {}
}
