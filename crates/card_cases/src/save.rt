// A block is saved by a write and a barrier, on every card.
ghost use Rattle.std.specs.Prelude.{◌≡◌, true, length, is_ok};
ghost use Rattle.cards.specs.Answers.{answer, Saved};
ghost use Rattle.card_cases.specs.Durable.{Durable};

use cards::card::Card;
use cards::fault::Fault;

// Writes the block, and makes it durable.
pub(crate) fn save<C: Card>(card: &mut C, b: usize, block: &[u8]) -> Result<(), Fault>
    ensures value { result ≡ answer (C.meaning card.old).size b (length block.now) }
    ensures size { (C.meaning card.new).size ≡ (C.meaning card.old).size }
    ensures card { Saved C.writes C.flushes result b block.now card.old card.new }
    ensures durable { is_ok result ≡ true → Durable (C.meaning card.new) b block.now }
    ensures lender { C.lenders card.new ≡ C.lenders card.old }
{
    card.write(b, block)?;
    card.barrier();
    Ok(())
}
