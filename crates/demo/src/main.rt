// A small tournament table on a card that loses power. The table is saved line by line, a block for each line, to a
// write-back card behind a shelf. Round 1 is made durable by a barrier. Round 2 is saved without one, and power is lost.
// What each block then holds is shown.
#![tactic(auto)]

ghost use Rattle.std.specs.Prelude.{◌≡◌, ℕ, ◌≤◌, ◌⊎◌, true, length, take, is_ok};
ghost use Rattle.cards.specs.Answers.{answer, Written, MeantWrite, WroteEach};
ghost use Rattle.cards.specs.Blocks.{content};
ghost use Rattle.demo.specs.Standings.{standing_text, writes_from};

mod standing;
mod table;

use cards::card::{BLOCK_SIZE, Card};
use cards::shelf::Shelf;
use cards::write_back::WriteBackCard;
use standing::{Points, Standing};
use std::io;
use table::{save, text_of};

// Each standing names its round, since a line stands alone on its block.
const ROUND_1: [Standing; 6] = [
    Standing {
        player: "Anna",
        round: 1,
        points: Points { halves: 2 },
    },
    Standing {
        player: "Boris",
        round: 1,
        points: Points { halves: 0 },
    },
    Standing {
        player: "Clara",
        round: 1,
        points: Points { halves: 1 },
    },
    Standing {
        player: "Dmitri",
        round: 1,
        points: Points { halves: 1 },
    },
    Standing {
        player: "Elena",
        round: 1,
        points: Points { halves: 0 },
    },
    Standing {
        player: "Farid",
        round: 1,
        points: Points { halves: 2 },
    },
];

const ROUND_2: [Standing; 6] = [
    Standing {
        player: "Anna",
        round: 2,
        points: Points { halves: 3 },
    },
    Standing {
        player: "Boris",
        round: 2,
        points: Points { halves: 0 },
    },
    Standing {
        player: "Clara",
        round: 2,
        points: Points { halves: 3 },
    },
    Standing {
        player: "Dmitri",
        round: 2,
        points: Points { halves: 1 },
    },
    Standing {
        player: "Elena",
        round: 2,
        points: Points { halves: 2 },
    },
    Standing {
        player: "Farid",
        round: 2,
        points: Points { halves: 3 },
    },
];

// One line more than the card has blocks.
const LATE_ENTRY: Standing = Standing {
    player: "Galina",
    round: 1,
    points: Points { halves: 0 },
};

// Bits 0, 2, 4 and 5 are set.
const PATTERN: u64 = 0x35;

// Saves a line to block b, or is refused as the card refuses, and says which. If memory runs out or printing fails, that holds or
// what the card means is as it was.
fn save_line<C: Card>(rt: &HostRuntime, card: &mut C, b: usize, line: &Standing) -> io::Result<()>
    ensures failed { Written (answer (C.meaning card.old).size b 512) (C.meaning card.old) b (content (standing_text line.now)) (C.meaning card.new) ⊎ (C.meaning card.new ≡ C.meaning card.old) }
    ensures saved { is_ok result ≡ true → Written (answer (C.meaning card.old).size b 512) (C.meaning card.old) b (content (standing_text line.now)) (C.meaning card.new) }
{
    let text = line.to_string(rt.alloc())?;
    match save(card, b, text.as_str()) {
        Ok(()) => println!(rt; "saved block {b}: {text}"),
        Err(fault) => println!(rt; "not saved to block {b}: {text}: {fault}"),
    }
}

// Saves the lines of a round to blocks 0, 1 and on, or is refused, line by line. If memory runs out or printing fails, this
// holds of the first few of them, and nothing else changes what the card means.
fn save_round<C: Card>(rt: &HostRuntime, card: &mut C, round: &[Standing]) -> io::Result<()>
    ensures failed { (n : ℕ) × (n ≤ length round.now) × WroteEach MeantWrite (writes_from 0 (take n round.now)) (C.meaning card.old) (C.meaning card.new) }
    ensures saved { is_ok result ≡ true → WroteEach MeantWrite (writes_from 0 round.now) (C.meaning card.old) (C.meaning card.new) }
{
    // A `for` and no chain: a contract says nothing of a card that a closure of the chain writes to.
    for (b, line) in round.iter().enumerate() {
        save_line(rt, card, b, line)?;
    }
    Ok(())
}

// Reads every block, and prints the line that it holds.
fn show<C: Card>(rt: &HostRuntime, card: &C) -> io::Result<()> {
    // A card is no slice: its blocks are read by number.
    for b in 0..card.blocks() {
        let mut buffer = [0u8; BLOCK_SIZE];
        match card.read(b, &mut buffer) {
            Ok(()) => println!(rt; "block {b} holds: {}", text_of(&buffer))?,
            Err(fault) => println!(rt; "{fault}")?,
        }
    }
    Ok(())
}

fn main(rt: HostRuntime) -> io::Result<()> {
    let mut memory = vec![in rt.alloc(); 0u8; 6 * 1024]?;
    let mut card = Shelf::new(WriteBackCard::new(&mut memory));
    let blocks = card.blocks();
    println!(rt; "a write-back card of {blocks} blocks behind a shelf of 4 places")?;
    save_round(&rt, &mut card, &ROUND_1)?;
    save_line(&rt, &mut card, blocks, &LATE_ENTRY)?;
    card.barrier();
    println!(rt; "barrier: what was saved is durable")?;
    save_round(&rt, &mut card, &ROUND_2)?;
    card.lose_power(PATTERN);
    println!(rt; "power lost, pattern {PATTERN:x}")?;
    show(&rt, &card)
}
