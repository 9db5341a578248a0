// Tables, the header and the layout at their edges. The expected values follow from the rules of docs/tables.md.
use cards::card::BLOCK_SIZE;
use cards::content::content_of;
use cards::fault::{Extent, Fault, Layer};
use std::test::Fail;
use tables::entry::{Count, PhysicalBlock, Print};
use tables::fnv::Fnv1a;
use tables::header::{pack_header, unpack_header};
use tables::layout::{Shape, Table, TableBlock};
use tables::table::{pack_block, unpack_block};

fn bad(block: usize, word: usize) -> Result<(), Fault> {
    Err(Fault::BadWord { block, word })
}

const SEVEN: Option<PhysicalBlock> = Some(PhysicalBlock { number: 7 });

// A link packs to kind 1 and the block's number, lowest byte first; a blank link to zeros.
#[test]
fn links(rt: HostRuntime) {
    let five = Some(PhysicalBlock { number: 5 });
    let bytes = pack_block(&[five, None]);
    assert_eq!(rt; bytes == content_of(&[5, 0, 0, 0x40]), true);
    let mut out = [SEVEN; 2];
    assert_eq!(rt; unpack_block(&bytes, 1, 6, &mut out), Ok(()));
    assert_eq!(rt; out, [five, None]);
    assert_eq!(rt; unpack_block(&bytes, 1, 5, &mut out), bad(1, 0));
}

// The first of two bad words is refused. The entry before it is taken up, the others stay.
#[test]
fn first_bad_word(rt: HostRuntime) {
    let bytes = content_of(&[1, 0, 0, 0x40, 9, 0, 0, 0x40, 9, 0, 0, 0x40]);
    let mut out = [SEVEN; 3];
    assert_eq!(rt; unpack_block(&bytes, 3, 9, &mut out), bad(3, 1));
    assert_eq!(rt; out, [Some(PhysicalBlock { number: 1 }), SEVEN, SEVEN]);
}

// A count reaches 4,095, and a blank word is none.
#[test]
fn counts(rt: HostRuntime) {
    let mut out = [Count { number: 1 }];
    let most = content_of(&[0xff, 0x0f, 0, 0x80]);
    assert_eq!(rt; unpack_block(&most, 2, 6, &mut out), Ok(()));
    assert_eq!(rt; out, [Count { number: 4095 }]);
    let more = content_of(&[0, 0x10, 0, 0x80]);
    assert_eq!(rt; unpack_block(&more, 2, 6, &mut out), bad(2, 0));
    assert_eq!(rt; unpack_block(&content_of(&[]), 2, 6, &mut out), bad(2, 0));
}

// A print is blank or of kind 3; a link is no print.
#[test]
fn prints(rt: HostRuntime) {
    let mut out = [Some(Print { value: 1 }); 2];
    let bytes = content_of(&[0, 0, 0, 0, 0xff, 0xff, 0xff, 0xff]);
    assert_eq!(rt; unpack_block(&bytes, 4, 6, &mut out), Ok(()));
    assert_eq!(rt; out, [None, Some(Print { value: 0x3fff_ffff })]);
    let link = content_of(&[0, 0, 0, 0, 1, 0, 0, 0x40]);
    assert_eq!(rt; unpack_block(&link, 4, 6, &mut out), bad(4, 1));
}

// After the last entry only zero words stand, up to word 127.
#[test]
fn tail(rt: HostRuntime) {
    let mut bytes = [0u8; BLOCK_SIZE];
    let mut out = [SEVEN; 127];
    bytes[511] = 0x40;
    assert_eq!(rt; unpack_block(&bytes, 1, 8, &mut out), bad(1, 127));
    assert_eq!(rt; out[126], None);
    let mut full = [SEVEN; 128];
    assert_eq!(rt; unpack_block(&bytes, 1, 8, &mut full), Ok(()));
    assert_eq!(rt; full[127], Some(PhysicalBlock { number: 0 }));
}

const SMALL: Shape = Shape {
    logical: 3,
    physical: 2,
};

// What the header of a small volume under rule 1 is taken for, if it has these bytes from a place on.
fn opened(place: usize, bytes: &[u8]) -> Result<Shape, Fault> {
    let mut header = pack_header(SMALL, &Fnv1a);
    for (byte, new) in header.iter_mut().skip(place).zip(bytes) {
        *byte = *new;
    }
    unpack_header(&header, &Fnv1a)
}

fn size_fault(extent: Extent) -> Result<Shape, Fault> {
    Err(Fault::VolumeSize {
        layer: Layer::Table,
        extent,
    })
}

// The tests of a header, each on the whole word.
#[test]
fn header(rt: HostRuntime) {
    assert_eq!(rt; opened(0, &[]), Ok(SMALL));
    assert_eq!(rt; opened(3, &[1]), Err(Fault::Version));
    assert_eq!(rt; opened(4, &[0]), size_fault(Extent::Logical));
    assert_eq!(rt; opened(4, &[1, 8]), size_fault(Extent::Logical));
    assert_eq!(rt; opened(10, &[1]), size_fault(Extent::Physical));
    assert_eq!(rt; opened(15, &[0x40]), Err(Fault::RuleNumber));
    assert_eq!(rt;
        opened(511, &[1]),
        Err(Fault::BadWord {
            block: 0,
            word: 127,
        })
    );
}

// Of two faults in a header the one that is tested first is answered.
#[test]
fn header_order(rt: HostRuntime) {
    let wrong = [0xffu8; 20];
    assert_eq!(rt; opened(0, &wrong), Err(Fault::Version));
    assert_eq!(rt; opened(4, &wrong), size_fault(Extent::Logical));
    assert_eq!(rt; opened(8, &wrong), size_fault(Extent::Physical));
    assert_eq!(rt; opened(12, &wrong), Err(Fault::RuleNumber));
    assert_eq!(rt;
        opened(16, &wrong),
        Err(Fault::BadWord { block: 0, word: 4 })
    );
}

// L, P, the table blocks and the card blocks that these take.
#[test]
fn sizes(rt: HostRuntime) -> Result<(), Fail> {
    for (logical, physical, tables, needed) in [
        (1, 1, 3, 5),
        (3, 2, 3, 6),
        (128, 128, 3, 132),
        (129, 128, 4, 133),
        (128, 129, 5, 135),
        (2048, 2048, 48, 2097),
    ] {
        let shape = Shape::new(Layer::Volume, logical, physical)?;
        assert_eq!(rt;
            (shape.table_blocks(), shape.blocks_needed()),
            (tables, needed)
        );
    }
    Ok(())
}

// The table blocks of 300 logical and 130 physical blocks: three of links, two of counts and two of prints.
#[test]
fn table_blocks(rt: HostRuntime) {
    let shape = Shape {
        logical: 300,
        physical: 130,
    };
    for (n, table, first, entries) in [
        (0, Table::Links, 0, 128),
        (2, Table::Links, 256, 44),
        (3, Table::Counts, 0, 128),
        (4, Table::Counts, 128, 2),
        (6, Table::Prints, 128, 2),
    ] {
        let expected = TableBlock {
            table,
            card_block: 1 + n,
            first,
            entries,
        };
        assert_eq!(rt; shape.table_block(n), Some(expected));
    }
    assert_eq!(rt; shape.table_block(7), None);
    assert_eq!(rt; shape.card_block(PhysicalBlock { number: 0 }), 8);
}
