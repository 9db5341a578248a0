// The content of a block, from bytes of any length.
ghost use Rattle.std.specs.Prelude.{◌≡◌};
ghost use Rattle.cards.specs.Blocks.{content};

use crate::card::BLOCK_SIZE;

// The bytes as the content of a block: cut to 512, or filled up with zeros.
pub fn content_of(bytes: &[u8]) -> [u8; BLOCK_SIZE]
    ensures { result ≡ content bytes.now }
{
    let mut block = [0; BLOCK_SIZE];
    let n = bytes.len().min(BLOCK_SIZE);
    block[..n].copy_from_slice(&bytes[..n]);
    block
}
