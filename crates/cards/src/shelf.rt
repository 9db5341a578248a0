// A card before another card that holds back the last few writes. It has four places. A write replaces its block's place
// or takes the next empty one; if four other blocks are on the shelf, these are first written to the card below. A barrier
// writes the places below and empties them, and a loss of power forgets them.
ghost use Rattle.std.specs.Prelude.{◌≡◌, ◌<◌, [], length};
ghost use Rattle.cards.specs.Answers.{CardWrite, WroteEach};
ghost use Rattle.cards.specs.OnShelf.{held_of, on_shelf, shelf_of, ShelfWrites, ShelfFlushes, ShelfLoses};
ghost use Rattle.cards.specs.Places.{listed};
ghost use Rattle.cards.specs.Shelves.{stays, goes};
ghost use Rattle.cards.specs.SoundCards.{shelf_sound};

use crate::blocks::admit;
use crate::card::Card;
use crate::fault::Fault;
use crate::place::{Place, Places};

// The card below, and the places.
#[derive(Drop)]
pub struct Shelf<C> {
    card: C,
    places: Places,
}

// Writes the places to the card, in order. `write` took up no block that the card does not have, so the card refuses none
// of them, and their answers are let go.
fn write_all<C: Card>(card: &mut C, places: &[Place])
    ensures { WroteEach (CardWrite C.meaning C.lenders C.writes) (held_of (listed places.now)) card.old card.new }
{
    for place in places {
        let _ = card.write(place.block, &place.bytes);
    }
}

impl<C: Card> Shelf<C> {
    // An empty shelf before the card.
    pub fn new(card: C) -> Shelf<C>
        ensures card { result.card ≡ card }
        ensures places { on_shelf result ≡ [] }
    {
        Shelf {
            card,
            places: Places::new(),
        }
    }

    // Writes the places in use to the card below, and takes them off.
    fn flush(&mut self)
        ensures below { WroteEach (CardWrite C.meaning C.lenders C.writes) (on_shelf self.old) self.old.card self.new.card }
        ensures places { self.new.places ≡ [] }
    {
        write_all(&mut self.card, self.places.in_use());
        self.places.clear();
    }

    // Flushes a full shelf, and leaves any other as it is.
    fn make_room(&mut self)
        ensures room { length self.new.places < 4 }
        ensures places { on_shelf self.new ≡ stays (on_shelf self.old) }
        ensures below { WroteEach (CardWrite C.meaning C.lenders C.writes) (goes (on_shelf self.old)) self.old.card self.new.card }
    {
        if self.places.is_full() {
            self.flush();
        }
    }
}

impl<C: Card> Card for Shelf<C> {
    ghost meaning = { λ s. shelf_of C.meaning s };

    ghost sound = { λ s. shelf_sound C.meaning C.sound s };

    ghost lenders = { λ s. C.lenders s.card };

    ghost writes = { λ s b x t. ShelfWrites C.meaning C.writes s b x t };

    ghost flushes = { λ s t. ShelfFlushes C.writes C.flushes s t };

    ghost loses = { λ s pattern t. ShelfLoses C.loses s pattern t };

    fn blocks(&self) -> usize {
        self.card.blocks()
    }

    fn read(&self, b: usize, buffer: &mut [u8]) -> Result<(), Fault> {
        admit(self.blocks(), b, buffer)?;
        match self.places.find(b) {
            Some(i) => {
                buffer.copy_from_slice(&self.places.in_use()[i].bytes);
                Ok(())
            }
            None => self.card.read(b, buffer),
        }
    }

    fn write(&mut self, b: usize, bytes: &[u8]) -> Result<(), Fault> {
        let block = admit(self.card.blocks(), b, bytes)?;
        if let Some(i) = self.places.find(b) {
            self.places.replace(i, b, block);
            return Ok(());
        }
        self.make_room();
        self.places.push(b, block);
        Ok(())
    }

    fn barrier(&mut self) {
        self.flush();
        self.card.barrier();
    }

    fn lose_power(&mut self, pattern: u64) {
        self.places.clear();
        self.card.lose_power(pattern);
    }
}
