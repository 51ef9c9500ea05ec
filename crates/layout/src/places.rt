// Where the blocks and records of a file stand.
ghost use Rattle.std.specs.Prelude.{◌≡◌, ℕ, ◌+◌, ◌/◌, ◌^◌, ◌<◌, length};
ghost use Rattle.blocks.specs.Block.{block_of, record_of};
ghost use Rattle.layout.specs.Places.{blocks_for, filled, signs_start, record_at};

use blocks::bytes::part;

// How many blocks so many parts or signs fill, 16 to a block.
pub(crate) fn blocks_for(count: u8) -> usize
    ensures { result ≡ blocks_for count }
{
    usize::from(count).div_ceil(16)
}

// How many of so many parts or signs stand in block b of their kind.
pub(crate) fn filled_at(count: u8, b: usize) -> u8
    requires { b < 65536 }
    ensures { result ≡ filled count b }
{
    usize::from(count).saturating_sub(16 * b).min(16) as u8
}

// The first block of the signs in a file of so many parts.
pub fn signs_start(parts: u8) -> usize
    ensures { result ≡ signs_start parts }
{
    1 + blocks_for(parts)
}

// The block b of a file.
pub fn block_at(file: &[u8], b: usize) -> &[u8]
    requires { b < 2 ^ 54 }
    ensures { result.now ≡ block_of file.now b }
{
    part(file, 512 * b, 512)
}

// The record r of the block b of a file.
pub fn record_of(file: &[u8], b: usize, r: usize) -> &[u8]
    requires { (b < 2 ^ 54) × (r < 256) }
    ensures { result.now ≡ record_of (block_of file.now b) r }
{
    part(block_at(file, b), 4 + 30 * r, 30)
}

// The record of the part or sign k, whose kind begins with the block `start`.
pub fn record_at(file: &[u8], start: usize, k: usize) -> &[u8]
    requires { start + k / 16 < 2 ^ 54 }
    ensures { result.now ≡ record_at file.now start k }
{
    record_of(file, start + k / 16, k % 16)
}
