// A column of up to 64 entries, in the order in which they were laid.
ghost use Rattle.std.specs.Prelude.{◌≡◌, length};
ghost use Rattle.layers.specs.Named.{Marked};

use crate::entry::Entry;
use arrayvec::ArrayVec;

pub mod stack;

// Each line that an entry names is marked in `named`, so that no other line is looked for among them; a mark that an undone
// entry has left is harmless.
#[derive(Drop)]
pub(crate) struct Column {
    entries: ArrayVec<Entry, 64>,
    named: [bool; 16384],
    ghost places: { length named ≡ 16384 },
    ghost marked: { Marked named entries.items },
}
