// A card over lent bytes whose writes wait. Each block has two copies: a write changes the fresh one, a barrier makes
// the kept one equal to it, and a loss of power leaves one of the two.
ghost use Rattle.std.specs.Prelude.{◌≡◌, ℕ};
ghost use Rattle.cards.specs.Lenders.{loan};
ghost use Rattle.cards.specs.Meanings.{Content};
ghost use Rattle.cards.specs.SoundCards.{write_back_sound};
ghost use Rattle.cards.specs.WriteBackCards.{write_back, back_write, fresh, fresh_stays, after_loss, Chosen, Settled};

use crate::blocks::{admit, block_at, copy_block, count, put_block};
use crate::card::{BLOCK_SIZE, Card};
use crate::fault::Fault;

// The bytes of a block's two copies.
const PAIR_SIZE: usize = 2 * BLOCK_SIZE;

#[derive(Drop)]
pub struct WriteBackCard<'a> {
    bytes: &'a mut [u8],
}

// Whether a loss under the pattern leaves block b its fresh copy.
fn fresh_stays(pattern: u64, b: usize) -> bool
    ensures { result ≡ fresh_stays pattern b }
{
    (pattern >> (b % 64)) % 2 == 1
}

// Copies one copy of each block over the other: the fresh one over the kept one where it stays, by the answer for the
// block's number, else the kept one over the fresh one.
fn settle<F: Fn(usize) -> bool>(bytes: &mut [u8], stays: F)
    requires { F.IsAlwaysCallable stays }
    ensures { (f : ℕ → Content) → Chosen (F.post stays) bytes.old f → Settled f bytes.old bytes.new }
{
    // By number: once a loop has written to the chunks of a slice, nothing is known of what these hold.
    let n = count(bytes.len(), PAIR_SIZE);
    for b in 0..n {
        if stays(b) {
            copy_block(bytes, n + b, b);
        } else {
            copy_block(bytes, b, n + b);
        }
    }
}

impl<'a> WriteBackCard<'a> {
    // A card over the lent bytes.
    pub fn new(bytes: &'a mut [u8]) -> WriteBackCard<'a>
        ensures exact { result.bytes.now ≡ bytes.old }
        ensures lender { loan result.bytes ≡ loan bytes.entry }
    {
        WriteBackCard { bytes }
    }
}

impl Card for WriteBackCard<'_> {
    ghost meaning = { λ c. write_back c.bytes.now };

    ghost sound = { λ c. write_back_sound c.bytes.now };

    ghost lenders = { λ c. loan c.bytes };

    ghost writes = { λ c b x d. d.bytes.now ≡ back_write c.bytes.now b x };

    ghost flushes = { λ c d. Settled (fresh c.bytes.now) c.bytes.now d.bytes.now };

    ghost loses = { λ c pattern d. Settled (after_loss pattern c.bytes.now) c.bytes.now d.bytes.now };

    fn blocks(&self) -> usize {
        count(self.bytes.len(), PAIR_SIZE)
    }

    fn read(&self, b: usize, buffer: &mut [u8]) -> Result<(), Fault> {
        let n = self.blocks();
        admit(n, b, buffer)?;
        buffer.copy_from_slice(block_at(self.bytes, n + b));
        Ok(())
    }

    fn write(&mut self, b: usize, bytes: &[u8]) -> Result<(), Fault> {
        // Of this card: `self.blocks()` would ask a card that is lent.
        let n = (*self).blocks();
        let block = admit(n, b, bytes)?;
        put_block(self.bytes, n + b, block);
        Ok(())
    }

    fn barrier(&mut self) {
        settle(self.bytes, |_| true);
    }

    fn lose_power(&mut self, pattern: u64) {
        settle(self.bytes, |b| fresh_stays(pattern, b));
    }
}
