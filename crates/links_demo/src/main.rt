// The links of a small volume on a card that loses power: they are packed to the first table block, made durable, and
// unpacked again after a loss of power. Then the same block is tried as counts, and refused.
#![tactic(auto)]

mod entries;

use cards::card::Card;
use cards::shelf::Shelf;
use cards::write_back::WriteBackCard;
use entries::save_and_lose;
use std::io;
use tables::entry::{Count, Entry, PhysicalBlock};
use tables::layout::Shape;
use tables::stored::load_entries;

const SHAPE: Shape = Shape {
    logical: 3,
    physical: 2,
};

const LINKS: [Option<PhysicalBlock>; 3] = [
    Some(PhysicalBlock { number: 0 }),
    None,
    Some(PhysicalBlock { number: 1 }),
];

// Prints each link and its word.
fn show_links(rt: &HostRuntime, links: &[Option<PhysicalBlock>]) -> io::Result<()> {
    for (l, link) in links.iter().enumerate() {
        let word = link.pack().bits;
        match link {
            Some(PhysicalBlock { number }) => {
                println!(rt; "logical {l}: {word:08x}, physical {number}")?
            }
            None => println!(rt; "logical {l}: {word:08x}, blank")?,
        }
    }
    Ok(())
}

// Packs the links to a block of the card, over what it holds, and unpacks it after a loss of power.
fn keep_links<C: Card>(rt: &HostRuntime, card: &mut C, block: usize) -> io::Result<()> {
    let mut links = [None; 3];
    match save_and_lose(card, block, SHAPE.physical, &LINKS, 0, &mut links) {
        Ok(()) => {
            println!(rt;
                "links packed to card block {block}, made durable, and unpacked after a loss of power:"
            )?;
            show_links(rt, &links)
        }
        Err(fault) => println!(rt; "{fault}"),
    }
}

// Tries to unpack a block of the card as counts.
fn try_counts<C: Card>(rt: &HostRuntime, card: &C, block: usize) -> io::Result<()> {
    let mut counts = [Count { number: 0 }; 3];
    match load_entries(card, block, SHAPE.physical, &mut counts) {
        Ok(()) => println!(rt; "card block {block} holds counts"),
        Err(fault) => println!(rt; "card block {block} taken for counts: {fault}"),
    }
}

fn main(rt: HostRuntime) -> io::Result<()> {
    let mut memory = vec![in rt.alloc(); 0u8; 6 * 1024]?;
    let mut card = Shelf::new(WriteBackCard::new(&mut memory));
    let tables = SHAPE.table_blocks();
    let needed = SHAPE.blocks_needed();
    println!(rt;
        "a volume of {} logical and {} physical blocks has {tables} table blocks and needs {needed} card blocks",
        SHAPE.logical, SHAPE.physical
    )?;
    if let Some(links) = SHAPE.table_block(0) {
        keep_links(&rt, &mut card, links.card_block)?;
        try_counts(&rt, &card, links.card_block)?;
    }
    Ok(())
}
