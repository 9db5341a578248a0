// A card that is lent is a card too, so that a shelf can stand before a card that its owner keeps. The owner can then tell
// what became of the card. Of a card that a shelf owns, whoever lent its bytes has no proof in the end of what they hold.
ghost use Rattle.std.specs.Prelude.{◌∷◌};

use crate::card::Card;
use crate::fault::Fault;

impl<C: Card> Card for &mut C {
    ghost meaning = { λ c. C.meaning c.now };

    ghost sound = { λ c. C.sound c.now };

    ghost lenders = { λ c. c.ghost_name ∷ C.lenders c.now };

    ghost writes = { λ c b x d. C.writes c.now b x d.now };

    ghost flushes = { λ c d. C.flushes c.now d.now };

    ghost loses = { λ c pattern d. C.loses c.now pattern d.now };

    fn blocks(&self) -> usize {
        (**self).blocks()
    }

    fn read(&self, b: usize, buffer: &mut [u8]) -> Result<(), Fault> {
        (**self).read(b, buffer)
    }

    fn write(&mut self, b: usize, bytes: &[u8]) -> Result<(), Fault> {
        (**self).write(b, bytes)
    }

    fn barrier(&mut self) {
        (**self).barrier()
    }

    fn lose_power(&mut self, pattern: u64) {
        (**self).lose_power(pattern)
    }
}
