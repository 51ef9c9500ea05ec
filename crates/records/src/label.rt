// Names and texts: a length, so many bytes, and zeros up to the end of the field.
ghost use Rattle.std.specs.Prelude.{◌≡◌, ℕ, ◌<◌, length, Decides};
ghost use Rattle.blocks.specs.Bytes.{byte_at};
ghost use Rattle.records.specs.Records.{Letter, Label, label_of};
ghost use Rattle.records.specs.Text.{SameText};

use blocks::bytes::{byte, part, zeros};

// Whether all bytes are letters.
fn letters(bytes: &[u8]) -> bool
    ensures { Decides result ((i : ℕ) → i < length bytes.now → Letter (byte_at bytes.now i)) }
{
    bytes.iter().all(|letter| (33..=126).contains(letter))
}

// Whether a record begins with a label in a field of so many bytes.
pub(crate) fn is_label(bytes: &[u8], size: usize) -> bool
    requires { (size < length bytes.now) × (size < 30) }
    ensures { Decides result (Label size (label_of size bytes.now) bytes.now) }
{
    let count = usize::from(byte(bytes, 0));
    (1..=size).contains(&count) && letters(label(bytes, size)) && zeros(bytes, 1 + count, 1 + size)
}

// The label that a record begins with, in a field of so many bytes.
pub fn label(bytes: &[u8], size: usize) -> &[u8]
    ensures { result.now ≡ label_of size bytes.now }
{
    part(bytes, 1, usize::from(byte(bytes, 0)).min(size))
}

// Whether two signs have the same text.
pub fn same_text(a: &[u8], b: &[u8]) -> bool
    ensures { Decides result (SameText a.now b.now) }
{
    a == b
}
