// Where a volume lies on its card: the header, the blocks of the link, count and print tables, and the physical blocks.
ghost use Rattle.std.specs.Prelude.{◌≡◌, ◌+◌, ◌<◌, ◌≤◌, [], ◌∷◌, find, nat_lt, MatchOption};
ghost use Rattle.tables.specs.Layouts.{sized_or, shape_of, blocks_for, entries_of, first_block, end_block, table_blocks, part, table_block, card_block_of, blocks_needed, EachInOne};
ghost use Rattle.tables.specs.declared.layout.Table.TheVariants.{Links, Counts, Prints};

use crate::entry::PhysicalBlock;
use crate::table::WORDS_PER_BLOCK;
use cards::fault::{Extent, Fault, Layer};

// The most logical blocks, and the most physical blocks, of a volume.
const LARGEST_SIZE: u16 = 2048;

// How many logical and how many physical blocks a volume has.
#[derive(Clone, Copy, PartialEq, Eq, Debug)]
pub struct Shape {
    pub logical: u16,
    pub physical: u16,
}

// The tables, in the order in which they lie on the card: a link for each logical block, and for each physical block a
// count and a print.
#[derive(Clone, Copy, PartialEq, Eq, Debug)]
pub enum Table {
    Links,
    Counts,
    Prints,
}

// One block of a table: where it lies on the card, and which entries of the table it holds.
#[derive(Clone, Copy, PartialEq, Eq, Debug)]
pub struct TableBlock {
    pub table: Table,
    pub card_block: usize,
    // The number of its first entry, and how many entries it holds.
    pub first: usize,
    pub entries: usize,
}

// A number of blocks, if it is 1 to 2,048.
fn check_size(layer: Layer, extent: Extent, size: u32) -> Result<u16, Fault>
    ensures { result ≡ sized_or layer extent size }
{
    u16::try_from(size)
        .ok()
        .filter(|blocks| (1..=LARGEST_SIZE).contains(blocks))
        .ok_or(Fault::VolumeSize { layer, extent })
}

// How many table blocks so many entries take.
fn blocks_for(entries: u16) -> usize
    ensures { result ≡ blocks_for entries }
{
    usize::from(entries).div_ceil(WORDS_PER_BLOCK)
}

impl Shape {
    // The shape with so many logical and physical blocks. The layer that asks refuses a number that is not 1 to 2,048.
    pub fn new(layer: Layer, logical: u32, physical: u32) -> Result<Shape, Fault>
        ensures { result ≡ shape_of layer logical physical }
    {
        let logical = check_size(layer, Extent::Logical, logical)?;
        let physical = check_size(layer, Extent::Physical, physical)?;
        Ok(Shape { logical, physical })
    }

    // How many entries a table has.
    pub fn entries(self, table: Table) -> u16
        ensures { result ≡ entries_of self table }
    {
        match table {
            Table::Links => self.logical,
            Table::Counts | Table::Prints => self.physical,
        }
    }

    // The first table block of a table.
    pub fn first_block(self, table: Table) -> usize
        ensures { result ≡ first_block self table }
    {
        match table {
            Table::Links => 0,
            Table::Counts => blocks_for(self.logical),
            Table::Prints => blocks_for(self.logical) + blocks_for(self.physical),
        }
    }

    // The first table block after those of a table.
    fn end_block(self, table: Table) -> usize
        ensures { result ≡ end_block self table }
    {
        self.first_block(table) + blocks_for(self.entries(table))
    }

    // The table that table block n is of: the first that ends after it.
    fn table_of(self, n: usize) -> Option<Table>
        ensures { result ≡ find (λ t. nat_lt n (end_block self t)) (Links ∷ Counts ∷ Prints ∷ []) }
    {
        [Table::Links, Table::Counts, Table::Prints]
            .iter()
            .copied()
            .find(|table| n < self.end_block(*table))
    }

    // How many table blocks the volume has. Each entry of each table is in one of them, and in no other.
    pub fn table_blocks(self) -> usize
        ensures value { result ≡ table_blocks self }
        ensures covers { EachInOne self }
    {
        self.end_block(Table::Prints)
    }

    // Table block n, as a block of this table.
    fn part(self, table: Table, n: usize) -> TableBlock
        requires { (first_block self table ≤ n) × (n < table_blocks self) }
        ensures { result ≡ part self table n }
    {
        let first = (n - self.first_block(table)) * WORDS_PER_BLOCK;
        let entries = usize::from(self.entries(table));
        TableBlock {
            table,
            card_block: 1 + n,
            first,
            entries: entries.saturating_sub(first).min(WORDS_PER_BLOCK),
        }
    }

    // Table block n, if the volume has it. It holds 1 to 128 entries.
    pub fn table_block(self, n: usize) -> Option<TableBlock>
        ensures value { result ≡ table_block self n }
        ensures within { MatchOption result (table_blocks self ≤ n) (λ b. (n < table_blocks self) × (b.card_block ≡ 1 + n) × (0 < b.entries) × (b.entries ≤ 128) × (b.first + b.entries ≤ entries_of self b.table)) }
    {
        self.table_of(n).map(|table| self.part(table, n))
    }

    // The card block of a physical block.
    pub fn card_block(self, block: PhysicalBlock) -> usize
        ensures { result ≡ card_block_of self block.number }
    {
        1 + self.table_blocks() + usize::from(block.number)
    }

    // How many card blocks the volume takes.
    pub fn blocks_needed(self) -> usize
        ensures { result ≡ blocks_needed self }
    {
        1 + self.table_blocks() + usize::from(self.physical)
    }
}
