// The record of a part.
ghost use Rattle.std.specs.Prelude.{Decides};
ghost use Rattle.records.specs.Records.{GoodPart, part_from};

use crate::label::is_label;
use crate::record::Record;
use blocks::bytes::byte;
use series::records::PartRecord;
use std::array;

// Whether the bytes are a part's record.
pub fn is_part(bytes: &[u8]) -> bool
    ensures { Decides result (GoodPart bytes.now) }
{
    bytes.len() == 30 && is_label(bytes, 20)
}

impl Record for PartRecord {
    ghost described = { part_from };

    fn from_bytes(bytes: &[u8]) -> PartRecord {
        PartRecord {
            mask: u64::from_be_bytes(array::from_fn(|k| byte(bytes, 22 + k))),
            standing: byte(bytes, 21),
        }
    }
}
