// Refusals: why a call was refused, by which layer, and where. One type serves every layer, so that a fault passes
// up through them by `?` unchanged.
ghost use Rattle.std.specs.Prelude.{◌≡◌, Some};
ghost use Rattle.cards.specs.Faults.{extent_word, number_of, layer_of, layer_number, places_of, line_of};

use std::error::Error;
use std::fmt;

// The layer that refuses: cards below, tables in the middle, the volume on top.
#[derive(Clone, Copy, PartialEq, Eq, Debug)]
pub enum Layer {
    Card = 1,
    Table = 2,
    Volume = 3,
}

// The two sizes of a volume: how many logical and how many physical blocks it has.
#[derive(Clone, Copy, PartialEq, Eq, Debug)]
pub enum Extent {
    Logical = 1,
    Physical = 2,
}

#[derive(Clone, Copy, PartialEq, Eq, Debug)]
pub enum Fault {
    // The buffer of a read or write has this length and not 512. The card and the volume test it.
    BufferLength { layer: Layer, length: usize },
    // The card has no such block.
    CardBlock { block: usize },
    // The volume has no such logical block.
    LogicalBlock { block: usize },
    // The volume has no such table block to send.
    TableBlock { block: usize },
    // A size of a volume is not 1 to 2,048. A format refuses as the volume, an opening as the table.
    VolumeSize { layer: Layer, extent: Extent },
    // The volume needs so many blocks, and the card has fewer.
    CardTooSmall { needed: usize },
    // The header's word 0 is not the version 1.
    Version,
    // The header's word 3 is not the number of the fingerprint rule.
    RuleNumber,
    // A word of a table block on the card has the wrong kind or is out of range, or one after the last entry, also in the
    // header, is not zero.
    BadWord { block: usize, word: usize },
    // The count of this physical block is below what names the block; it is the lowest such block.
    LowCount { block: usize },
    // No physical block is free.
    Full,
}

impl Layer {
    // 1 for the card, 2 for the table, 3 for the volume.
    pub fn number(&self) -> u8
        ensures { result ≡ layer_number self.now }
    {
        *self as u8
    }
}

impl Extent {
    // The word of the header that holds this size: 1 or 2.
    pub fn word(&self) -> usize
        ensures { result ≡ extent_word self.now }
    {
        *self as usize
    }
}

impl Fault {
    // Each refusal has a number of its own. Written out, since an enum whose cases have fields takes no discriminants.
    pub fn number(&self) -> u8
        ensures { result ≡ number_of self.now }
    {
        match self {
            Fault::BufferLength { .. } => 1,
            Fault::CardBlock { .. } => 2,
            Fault::LogicalBlock { .. } => 3,
            Fault::TableBlock { .. } => 4,
            Fault::VolumeSize { .. } => 5,
            Fault::CardTooSmall { .. } => 6,
            Fault::Version => 7,
            Fault::RuleNumber => 8,
            Fault::BadWord { .. } => 9,
            Fault::LowCount { .. } => 10,
            Fault::Full => 11,
        }
    }

    // The layer that refused.
    pub fn layer(&self) -> Layer
        ensures { result ≡ layer_of self.now }
    {
        match self {
            Fault::BufferLength { layer, .. } | Fault::VolumeSize { layer, .. } => *layer,
            Fault::CardBlock { .. } => Layer::Card,
            Fault::Version | Fault::RuleNumber | Fault::BadWord { .. } => Layer::Table,
            Fault::LogicalBlock { .. }
            | Fault::TableBlock { .. }
            | Fault::CardTooSmall { .. }
            | Fault::LowCount { .. }
            | Fault::Full => Layer::Volume,
        }
    }

    // The two places that the refusal names. One that is not used is 0, and no `None`, as it is told and printed.
    pub fn places(&self) -> (usize, usize)
        ensures { result ≡ places_of self.now }
    {
        match self {
            Fault::BufferLength { length, .. } => (*length, 0),
            Fault::CardBlock { block }
            | Fault::LogicalBlock { block }
            | Fault::TableBlock { block }
            | Fault::LowCount { block } => (*block, 0),
            Fault::VolumeSize { extent, .. } => (0, extent.word()),
            Fault::CardTooSmall { needed } => (*needed, 0),
            Fault::Version => (0, 0),
            Fault::RuleNumber => (0, 3),
            Fault::BadWord { block, word } => (*block, *word),
            Fault::Full => (0, 0),
        }
    }
}

impl Error for Fault {}

// The word `refused`, then number, layer and places, as in `refused 2 1 48 0`.
impl fmt::Display for Fault {
    ghost output = { λ f. Some (line_of f) };

    fn fmt<W: fmt::Write>(&self, f: &mut fmt::Formatter<W>) -> fmt::Result {
        let number = self.number();
        let layer = self.layer().number();
        let (first, second) = self.places();
        write!(f, "refused {number} {layer} {first} {second}")
    }
}
