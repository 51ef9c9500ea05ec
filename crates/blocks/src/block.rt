// The check of a block and its layout.
ghost use Rattle.std.specs.Prelude.{◌≡◌, Decides};
ghost use Rattle.blocks.specs.Block.{check_of, Checked, Laid};
ghost use Rattle.blocks.specs.Faults.{BlockRead};

use crate::bytes::{byte, part, two_bytes, zeros};
use crate::fault::BlockFault;

// What a block is to be: its kind, its place in the file, and the fewest and the most records that it may hold.
// The kind is told by its byte, whichever it is: which kinds there are is for the layout to say.
#[derive(Clone, Copy, PartialEq, Eq, Debug)]
pub struct Expected {
    pub kind: u8,
    pub place: usize,
    pub fewest: u8,
    pub utmost: u8,
}

// The check: each of the first 510 bytes times its place counted from 1, summed, modulo 65,521.
#[tactic(auto, using(crate::proofs::Weights::weighing))]
pub fn check(block: &[u8]) -> u16
    ensures { result ≡ check_of block.now }
{
    let mut sum: u32 = 0;
    for (place, byte) in part(block, 0, 510).iter().enumerate() {
        sum += (place as u32 + 1) * u32::from(*byte);
    }
    (sum % 65521) as u16
}

// Whether a block holds the check of its bytes.
fn checked(block: &[u8]) -> bool
    ensures { Decides result (Checked block.now) }
{
    two_bytes(byte(block, 510), byte(block, 511)) == check(block)
}

// Whether a block is laid out as it is to be.
fn laid(block: &[u8], expected: Expected) -> bool
    ensures { Decides result (Laid expected.kind expected.place expected.fewest expected.utmost block.now) }
{
    let count = byte(block, 1);
    block.len() == 512
        && byte(block, 0) == expected.kind
        && (expected.fewest..=expected.utmost).contains(&count)
        && usize::from(two_bytes(byte(block, 2), byte(block, 3))) == expected.place
        && zeros(block, 4 + 30 * usize::from(count), 510)
}

// How many records a block that is to be such a one holds; or its fault, the check first.
pub fn read_block(block: &[u8], expected: Expected) -> Result<u8, BlockFault>
    ensures { BlockRead expected.kind expected.place expected.fewest expected.utmost block.now result }
{
    if !checked(block) {
        return Err(BlockFault::Check(expected.place));
    }
    if !laid(block, expected) {
        return Err(BlockFault::Layout(expected.place));
    }
    Ok(byte(block, 1))
}
