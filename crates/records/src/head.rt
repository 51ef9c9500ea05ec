// The record of a job's head.
ghost use Rattle.std.specs.Prelude.{Decides};
ghost use Rattle.records.specs.Records.{GoodHead, head_from};

use crate::record::Record;
use blocks::bytes::{byte, zeros};

// The numbers of parts and signs, and the bounds of the total.
#[derive(Clone, Copy, PartialEq, Eq, Debug, Default)]
pub struct HeadRecord {
    pub parts: u8,
    pub signs: u8,
    pub least: u8,
    pub most: u8,
}

// Whether the bytes are a head's record: four numbers and zeros.
pub fn is_head(bytes: &[u8]) -> bool
    ensures { Decides result (GoodHead bytes.now) }
{
    bytes.len() == 30 && zeros(bytes, 4, 30)
}

impl Record for HeadRecord {
    ghost described = { head_from };

    fn from_bytes(bytes: &[u8]) -> HeadRecord {
        HeadRecord {
            parts: byte(bytes, 0),
            signs: byte(bytes, 1),
            least: byte(bytes, 2),
            most: byte(bytes, 3),
        }
    }
}
