// Whoever lends a card its bytes can tell what they hold when the card is done with them. Behind a shelf this takes two
// steps: the bytes are lent to a card, and the card is lent to the shelf. Each function here saves one block by a write and
// a barrier, and then lets the card go.
ghost use Rattle.std.specs.Prelude.{◌≡◌, true, length, is_ok, MatchBool};
ghost use Rattle.cards.specs.Answers.{answer};
ghost use Rattle.cards.specs.PlainCards.{plain, plain_write};
ghost use Rattle.cards.specs.WriteBackCards.{pairs};
ghost use Rattle.card_cases.specs.Durable.{Durable};
ghost use Rattle.card_cases.specs.SavedBytes.{SavedBytes};

use crate::save::save;
use cards::card::Card;
use cards::fault::Fault;
use cards::plain::PlainCard;
use cards::shelf::Shelf;
use cards::write_back::WriteBackCard;

// On a plain card the bytes then hold the block, and every other byte is as it was.
pub fn save_plain(bytes: &mut [u8], b: usize, block: &[u8]) -> Result<(), Fault>
    ensures value { result ≡ answer (plain bytes.old).size b (length block.now) }
    ensures bytes { bytes.new ≡ plain_write bytes.old b block.now }
{
    let mut card = PlainCard::new(bytes);
    save(&mut card, b, block)
}

// On a write-back card both copies of every block are then its fresh copy, and that of block b is the block.
pub fn save_write_back(bytes: &mut [u8], b: usize, block: &[u8]) -> Result<(), Fault>
    ensures value { result ≡ answer (pairs bytes.old) b (length block.now) }
    ensures bytes { SavedBytes result bytes.old b block.now bytes.new }
{
    let mut card = WriteBackCard::new(bytes);
    save(&mut card, b, block)
}

// To any card behind a shelf exactly this write and a barrier go, or nothing. The block is then present below, and
// nothing else is in doubt there.
pub fn save_through_shelf<C: Card>(card: &mut C, b: usize, block: &[u8]) -> Result<(), Fault>
    ensures value { result ≡ answer (C.meaning card.old).size b (length block.now) }
    ensures below { MatchBool (is_ok result) ((k : C) × C.writes card.old b block.now k × C.flushes k card.new) (card.new ≡ card.old) }
    ensures durable { is_ok result ≡ true → Durable (C.meaning card.new) b block.now }
    ensures lender { C.lenders card.new ≡ C.lenders card.old }
{
    let mut shelf = Shelf::new(card);
    save(&mut shelf, b, block)
}

// So the bytes of a write-back card behind a shelf hold what they hold without the shelf.
pub fn save_write_back_through_shelf(bytes: &mut [u8], b: usize, block: &[u8]) -> Result<(), Fault>
    ensures value { result ≡ answer (pairs bytes.old) b (length block.now) }
    ensures bytes { SavedBytes result bytes.old b block.now bytes.new }
{
    let mut card = WriteBackCard::new(bytes);
    save_through_shelf(&mut card, b, block)
}
