// Bytes by their place, for slices of any length.
ghost use Rattle.std.specs.Prelude.{◌≡◌, [], ◌∷◌, Decides};
ghost use Rattle.blocks.specs.Bytes.{byte_at, number_at, Zeros, part_at};

// The byte at a place; 0 past the end.
pub fn byte(bytes: &[u8], place: usize) -> u8
    ensures { result ≡ byte_at bytes.now place }
{
    bytes.get(place).copied().unwrap_or(0)
}

// The number that two bytes make, the highest first.
pub fn two_bytes(high: u8, low: u8) -> u16
    ensures { result ≡ number_at 2 (high ∷ low ∷ []) 0 }
{
    u16::from_be_bytes([high, low])
}

// So many bytes from a place on, as far as there are any.
pub fn part(bytes: &[u8], from: usize, size: usize) -> &[u8]
    ensures { result.now ≡ part_at size bytes.now from }
{
    let rest = bytes.get(from..).unwrap_or_default();
    rest.get(..size).unwrap_or(rest)
}

// Whether the bytes from one place up to another are zero.
pub fn zeros(bytes: &[u8], from: usize, to: usize) -> bool
    ensures { Decides result (Zeros from to bytes.now) }
{
    part(bytes, from, to.saturating_sub(from))
        .iter()
        .all(|byte| *byte == 0)
}
