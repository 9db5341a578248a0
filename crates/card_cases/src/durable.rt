// On every card, what was written before a barrier survives a loss of power.
ghost use Rattle.std.specs.Prelude.{◌≡◌, length, is_ok, if◌then◌else◌};
ghost use Rattle.cards.specs.Answers.{answer, SavedThenLost};

use crate::save::save;
use cards::card::Card;
use cards::fault::Fault;

// Writes a block, makes it durable, loses power and reads it back.
pub fn save_and_lose<C: Card>(
    card: &mut C,
    b: usize,
    block: &[u8],
    pattern: u64,
    buffer: &mut [u8],
) -> Result<(), Fault>
    ensures value { result ≡ (if is_ok (answer (C.meaning card.old).size b (length block.now)) then answer (C.meaning card.old).size b (length buffer.old) else answer (C.meaning card.old).size b (length block.now)) }
    ensures buffer { buffer.new ≡ (if is_ok result then block.now else buffer.old) }
    ensures card { SavedThenLost C.writes C.flushes C.loses (answer (C.meaning card.old).size b (length block.now)) b block.now pattern card.old card.new }
    ensures lender { C.lenders card.new ≡ C.lenders card.old }
{
    save(card, b, block)?;
    card.lose_power(pattern);
    card.read(b, buffer)
}
