// Each make of card at its edges. The expected values follow from the rules of docs/cards.md.
use cards::card::{BLOCK_SIZE, Card};
use cards::fault::{Extent, Fault, Layer};
use cards::plain::PlainCard;
use cards::shelf::Shelf;
use cards::write_back::WriteBackCard;
use std::test::Fail;

// Fills block b with the byte.
fn fill<C: Card>(card: &mut C, b: usize, byte: u8) -> Result<(), Fault> {
    card.write(b, &[byte; BLOCK_SIZE])
}

// The first byte of block b.
fn first<C: Card>(card: &C, b: usize) -> Result<u8, Fault> {
    let mut buffer = [0u8; BLOCK_SIZE];
    card.read(b, &mut buffer)?;
    Ok(buffer[0])
}

// How many blocks a plain and a write-back card show of so many bytes.
fn shown(bytes: &mut [u8], length: usize) -> (usize, usize) {
    let length = length.min(bytes.len());
    let part = &mut bytes[0..length];
    let plain = PlainCard::new(part).blocks();
    let write_back = WriteBackCard::new(part).blocks();
    (plain, write_back)
}

#[test]
fn sizes(rt: HostRuntime) {
    let mut memory = [0u8; 2048];
    let bytes: &mut [u8] = &mut memory;
    for (length, plain, write_back) in [
        (0, 0, 0),
        (511, 0, 0),
        (512, 1, 0),
        (1023, 1, 0),
        (1024, 2, 1),
        (2047, 3, 1),
        (2048, 4, 2),
    ] {
        assert_eq!(rt; shown(bytes, length), (plain, write_back));
    }
}

#[test]
fn most_blocks(rt: HostRuntime) -> Result<(), Fail> {
    let mut bytes = vec![in rt.alloc(); 0u8; 65536 * 512]?;
    let mut card = PlainCard::new(&mut bytes);
    assert_eq!(rt; card.blocks(), 65535);
    assert_eq!(rt; fill(&mut card, 65534, 1), Ok(()));
    assert_eq!(rt;
        fill(&mut card, 65535, 1),
        Err(Fault::CardBlock { block: 65535 })
    );
    Ok(())
}

#[test]
fn last_block_and_past_it(rt: HostRuntime) {
    let mut bytes = [0u8; 3 * 1024];
    let mut card = WriteBackCard::new(&mut bytes);
    assert_eq!(rt; fill(&mut card, 2, 7), Ok(()));
    assert_eq!(rt; first(&card, 2), Ok(7));
    assert_eq!(rt; fill(&mut card, 3, 7), Err(Fault::CardBlock { block: 3 }));
    assert_eq!(rt; first(&card, 3), Err(Fault::CardBlock { block: 3 }));
}

// The buffer is tested before the block, and a refused read leaves it as it was.
#[test]
fn wrong_buffer(rt: HostRuntime) {
    let mut bytes = [0u8; 512];
    let mut card = PlainCard::new(&mut bytes);
    let mut long = [9u8; 513];
    let refused = Fault::BufferLength {
        layer: Layer::Card,
        length: 513,
    };
    assert_eq!(rt; card.read(1, &mut long), Err(refused));
    assert_eq!(rt; long[0], 9);
    assert_eq!(rt; card.write(0, &long), Err(refused));
    assert_eq!(rt; first(&card, 0), Ok(0));
}

// Bit b mod 64 of the pattern decides over block b: bit 0 over blocks 0 and 64, bit 1 over block 1.
#[test]
fn pattern_bits(rt: HostRuntime) -> Result<(), Fail> {
    let mut bytes = vec![in rt.alloc(); 0u8; 65 * 1024]?;
    let mut card = WriteBackCard::new(&mut bytes);
    fill(&mut card, 0, 1)?;
    fill(&mut card, 1, 1)?;
    fill(&mut card, 64, 1)?;
    card.barrier();
    fill(&mut card, 0, 2)?;
    fill(&mut card, 1, 2)?;
    fill(&mut card, 64, 2)?;
    card.lose_power(1);
    assert_eq!(rt; first(&card, 0), Ok(2));
    assert_eq!(rt; first(&card, 1), Ok(1));
    assert_eq!(rt; first(&card, 64), Ok(2));
    Ok(())
}

// Four blocks wait on a shelf; a fifth sends them below and waits alone.
#[test]
fn fifth_block_on_a_shelf(rt: HostRuntime) -> Result<(), Fail> {
    let mut bytes = [0u8; 5 * 1024];
    let mut shelf = Shelf::new(WriteBackCard::new(&mut bytes));
    for b in 0..4 {
        fill(&mut shelf, b, 1)?;
    }
    fill(&mut shelf, 3, 2)?;
    fill(&mut shelf, 4, 1)?;
    assert_eq!(rt; first(&shelf, 4), Ok(1));
    shelf.lose_power(u64::MAX);
    assert_eq!(rt; first(&shelf, 0), Ok(1));
    assert_eq!(rt; first(&shelf, 3), Ok(2));
    assert_eq!(rt; first(&shelf, 4), Ok(0));
    Ok(())
}

// A barrier goes down through two shelves, and a loss empties both.
#[test]
fn shelf_on_shelf(rt: HostRuntime) -> Result<(), Fail> {
    let mut bytes = [0u8; 2 * 1024];
    let mut shelf = Shelf::new(Shelf::new(WriteBackCard::new(&mut bytes)));
    assert_eq!(rt; shelf.blocks(), 2);
    fill(&mut shelf, 0, 1)?;
    shelf.barrier();
    fill(&mut shelf, 0, 2)?;
    fill(&mut shelf, 1, 2)?;
    assert_eq!(rt; first(&shelf, 0), Ok(2));
    shelf.lose_power(u64::MAX);
    assert_eq!(rt; first(&shelf, 0), Ok(1));
    assert_eq!(rt; first(&shelf, 1), Ok(0));
    Ok(())
}

// A shelf before a lent card: what it has not written below is gone with it, and the card stays.
#[test]
fn shelf_before_a_lent_card(rt: HostRuntime) -> Result<(), Fail> {
    let mut bytes = [0u8; 2 * 1024];
    let mut card = WriteBackCard::new(&mut bytes);
    {
        let mut shelf = Shelf::new(&mut card);
        fill(&mut shelf, 0, 1)?;
        shelf.barrier();
        fill(&mut shelf, 1, 1)?;
    }
    assert_eq!(rt; first(&card, 0), Ok(1));
    assert_eq!(rt; first(&card, 1), Ok(0));
    Ok(())
}

#[test]
fn refusals_as_text(rt: HostRuntime) -> Result<(), Fail> {
    let heap = rt.alloc();
    for (fault, text) in [
        (Fault::CardBlock { block: 48 }, "refused 2 1 48 0"),
        (
            Fault::BadWord {
                block: 3,
                word: 127,
            },
            "refused 9 2 3 127",
        ),
        (Fault::Full, "refused 11 3 0 0"),
        (
            Fault::VolumeSize {
                layer: Layer::Table,
                extent: Extent::Physical,
            },
            "refused 5 2 0 2",
        ),
    ] {
        assert_eq!(rt; fault.to_string(heap)?.as_str(), text);
    }
    Ok(())
}
