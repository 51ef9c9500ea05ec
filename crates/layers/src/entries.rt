// The entries layer: it holds a network and up to 64 entries, which make the bounds of its lines narrower.
ghost use Rattle.std.specs.Prelude.{◌≡◌, []};
ghost use Rattle.layers.specs.Column.{entries_of};
ghost use Rattle.layers.specs.Entries.{lay_number, undo_number, FindsBounds, LaysOn, UndoesOn};

use crate::column::Column;
use crate::entry::{Bounds, Entry};
use network::{Network, ask};

pub mod answers;
pub mod legend;

// What it means is defined for every value: an entry outside the bounds that the line below and the entries before it leave is
// passed over, and no call leaves one.
#[derive(Drop)]
pub struct Entries<N> {
    below: N,
    column: Column,
}

// Why an entry is not laid.
#[derive(Clone, Copy, PartialEq, Eq, Debug)]
pub enum LayRefusal {
    // no line has that place
    NoLine,
    // the amount is outside the line's present bounds
    OutOfBounds,
    // 64 entries stand
    Full,
}

impl LayRefusal {
    pub fn number(self) -> u8
        ensures { result ≡ lay_number self }
    {
        match self {
            LayRefusal::NoLine => 10,
            LayRefusal::OutOfBounds => 11,
            LayRefusal::Full => 12,
        }
    }
}

// Why nothing is undone: no entry stands.
#[derive(Clone, Copy, PartialEq, Eq, Debug)]
pub enum UndoRefusal {
    NoEntry,
}

impl UndoRefusal {
    pub fn number(self) -> u8
        ensures { result ≡ undo_number self }
    {
        match self {
            UndoRefusal::NoEntry => 13,
        }
    }
}

impl<N: Network> Entries<N> {
    // The layer over a network, with no entries.
    pub fn new(below: N) -> Entries<N>
        ensures below { result.below ≡ below }
        ensures empty { entries_of result.column ≡ [] }
    {
        Entries {
            below,
            column: Column::new(),
        }
    }

    // The present bounds of the line at a place; none where there is no line.
    #[tactic(auto, using(crate::proofs::Asked::line_under, crate::proofs::Asked::none_asked, crate::proofs::Asked::some_asked))]
    fn present(&self, place: usize) -> Option<Bounds>
        ensures { FindsBounds (N.Network.meaning self.now.below) (entries_of self.now.column) place result }
    {
        let (_, _, least, most) = ask(self, place)?;
        Some(Bounds { least, most })
    }

    // The entry joins at the end. A refusal changes nothing.
    pub fn lay(&mut self, entry: Entry) -> Result<(), LayRefusal>
        ensures { LaysOn N.Network.meaning entry self.old self.new result }
    {
        let present = self.present(entry.line).ok_or(LayRefusal::NoLine)?;
        if !present.contain(entry.amount) {
            return Err(LayRefusal::OutOfBounds);
        }
        if self.column.is_full() {
            return Err(LayRefusal::Full);
        }
        self.column.push(entry);
        Ok(())
    }

    // The last entry goes, and is handed out. A refusal changes nothing.
    pub fn undo(&mut self) -> Result<Entry, UndoRefusal>
        ensures { UndoesOn self.old self.new result }
    {
        self.column.pop().ok_or(UndoRefusal::NoEntry)
    }

    // The network that the layer held.
    pub fn into_inner(self) -> N
        ensures { result ≡ self.below }
    {
        let Entries { below, column: _ } = self;
        below
    }
}
