// Bytes as a run of blocks, and the tests on a block number and a buffer that every make of card shares.
ghost use Rattle.std.specs.Prelude.{◌≡◌, ◌+◌, ◌*◌, ◌<◌, ◌≤◌, length, Ok, Err, MatchResult};
ghost use Rattle.cards.specs.Answers.{answer};
ghost use Rattle.cards.specs.Blocks.{shown_blocks, block_at, put_block};

use crate::card::{BLOCK_SIZE, MOST_BLOCKS};
use crate::fault::{Fault, Layer};

// The buffer as a block, if a card of so many blocks takes a buffer of this length at block b.
pub(crate) fn admit(blocks: usize, b: usize, buffer: &[u8]) -> Result<&[u8; BLOCK_SIZE], Fault>
    ensures { MatchResult result (λ block. (block.now ≡ buffer.now) × (Ok tt ≡ answer blocks b (length buffer.now))) (λ fault. Err fault ≡ answer blocks b (length buffer.now)) }
{
    let Some(block) = buffer.as_array() else {
        return Err(Fault::BufferLength {
            layer: Layer::Card,
            length: buffer.len(),
        });
    };
    if b >= blocks {
        return Err(Fault::CardBlock { block: b });
    }
    Ok(block)
}

// How many blocks a card shows of memory of this length, at so many bytes for each block.
pub(crate) fn count(len: usize, each: usize) -> usize
    requires { 0 < each }
    ensures { result ≡ shown_blocks len each }
{
    (len / each).min(MOST_BLOCKS)
}

// That block p lies in the bytes ties a number to a slice, as an index does; so each of the three functions below asks for
// it, and no type keeps it.

// The block at place p.
pub(crate) fn block_at(bytes: &[u8], p: usize) -> &[u8]
    requires { p * 512 + 512 ≤ length bytes.now }
    ensures value { result.now ≡ block_at bytes.now p }
    ensures whole { length result.now ≡ 512 }
{
    &bytes[p * BLOCK_SIZE..p * BLOCK_SIZE + BLOCK_SIZE]
}

// Writes the block at place p.
pub(crate) fn put_block(bytes: &mut [u8], p: usize, block: &[u8; BLOCK_SIZE])
    requires { p * 512 + 512 ≤ length bytes.old }
    ensures { bytes.new ≡ put_block bytes.old p block.now }
{
    let part = &mut bytes[p * BLOCK_SIZE..p * BLOCK_SIZE + BLOCK_SIZE];
    part.copy_from_slice(block);
}

// Copies the block at one place over another.
pub(crate) fn copy_block(bytes: &mut [u8], from: usize, to: usize)
    requires from_within { from * 512 + 512 ≤ length bytes.old }
    requires to_within { to * 512 + 512 ≤ length bytes.old }
    ensures { bytes.new ≡ put_block bytes.old to (block_at bytes.old from) }
{
    bytes.copy_within(
        from * BLOCK_SIZE..from * BLOCK_SIZE + BLOCK_SIZE,
        to * BLOCK_SIZE,
    );
}
