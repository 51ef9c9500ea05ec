// Entries, and the bounds that they make narrower.
ghost use Rattle.std.specs.Prelude.{◌≡◌};
ghost use Rattle.layers.specs.Narrow.{narrow, within};

// Which of a line's bounds an entry sets.
#[derive(Clone, Copy, PartialEq, Eq, Debug, Default)]
pub enum Bound {
    #[default]
    AtLeast,
    AtMost,
}

// A choice: the line at this place is to carry at least, or at most, this amount.
#[derive(Clone, Copy, PartialEq, Eq, Debug, Default)]
pub struct Entry {
    pub line: usize,
    pub bound: Bound,
    pub amount: u16,
}

// The least and the most that a line may carry.
#[derive(Clone, Copy)]
pub struct Bounds {
    pub least: u16,
    pub most: u16,
}

impl Bounds {
    // Whether an amount lies within them.
    pub(crate) fn contain(self, amount: u16) -> bool
        ensures { result ≡ within self amount }
    {
        (self.least..=self.most).contains(&amount)
    }

    // What one entry leaves of them, if they are those of the line at this place.
    pub(crate) fn narrowed(self, place: usize, entry: Entry) -> Bounds
        ensures { result ≡ narrow place self entry }
    {
        if entry.line != place || !self.contain(entry.amount) {
            return self;
        }
        match entry.bound {
            Bound::AtLeast => Bounds {
                least: entry.amount,
                ..self
            },
            Bound::AtMost => Bounds {
                most: entry.amount,
                ..self
            },
        }
    }
}
