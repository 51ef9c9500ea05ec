// The record of a sign.
ghost use Rattle.std.specs.Prelude.{Decides};
ghost use Rattle.records.specs.Records.{GoodSign, sign_from};

use crate::label::is_label;
use crate::record::Record;
use blocks::bytes::{byte, zeros};
use series::records::SignRecord;

// Whether the bytes are a sign's record. A form for parts too would take the sizes of both fields, and be longer than the two lines.
pub fn is_sign(bytes: &[u8]) -> bool
    ensures { Decides result (GoodSign bytes.now) }
{
    bytes.len() == 30 && is_label(bytes, 8) && zeros(bytes, 11, 30)
}

impl Record for SignRecord {
    ghost described = { sign_from };

    fn from_bytes(bytes: &[u8]) -> SignRecord {
        SignRecord {
            least: byte(bytes, 9),
            most: byte(bytes, 10),
        }
    }
}
