// What is done with a column: one entry more, one less, and the bounds that it leaves of a line.
ghost use Rattle.std.specs.Prelude.{◌≡◌, ◌<◌, ◌≤◌, [], ◌∷◌, ◌++◌, length, ◌==◌, slice_index_or};
ghost use Rattle.layers.specs.Column.{entries_of, Popped};
ghost use Rattle.layers.specs.Named.{marks};
ghost use Rattle.layers.specs.Narrow.{narrowed};

use super::Column;
use crate::entry::{Bounds, Entry};
use arrayvec::ArrayVec;

impl Column {
    // No entry stands.
    pub(crate) fn new() -> Column
        ensures { entries_of result ≡ [] }
    {
        Column {
            entries: ArrayVec::new(),
            named: [false; 16384],
        }
    }

    // Whether there is no room for another entry.
    pub(crate) fn is_full(&self) -> bool
        ensures value { result ≡ (length (entries_of self.now) == 64) }
        ensures fits { length (entries_of self.now) ≤ 64 }
    {
        self.entries.is_full()
    }

    // The entry joins at the end.
    pub(crate) fn push(&mut self, entry: Entry)
        requires { (length (entries_of self.old) < 64) × (entry.line < 16384) }
        ensures { entries_of self.new ≡ entries_of self.old ++ entry ∷ [] }
    {
        self.named[entry.line] = true;
        self.entries.push(entry);
    }

    // The last entry goes, if one stands.
    pub(crate) fn pop(&mut self) -> Option<Entry>
        ensures { Popped self.old self.new result }
    {
        self.entries.pop()
    }

    // Whether the line at a place is marked.
    fn may_name(&self, place: usize) -> bool
        ensures { result ≡ marks self.now.named place }
    {
        self.named.get(place) == Some(&true)
    }

    // What the column leaves of the bounds of the line at a place.
    pub(crate) fn bounds(&self, place: usize, bounds: Bounds) -> Bounds
        ensures { result ≡ narrowed place bounds (entries_of self.now) }
    {
        if !self.may_name(place) {
            return bounds;
        }
        self.entries
            .iter()
            .fold(bounds, |left, laid| left.narrowed(place, *laid))
    }
}
