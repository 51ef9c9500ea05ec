// Why an act is refused.
ghost use Rattle.std.specs.Prelude.{◌≡◌};
ghost use Rattle.acts.specs.Changes.{act_number};
ghost use Rattle.acts.specs.declared.refusal.ActRefusal.TheVariants.{Lay, Undo};

use layers::entries::{LayRefusal, UndoRefusal};

#[derive(Clone, Copy, PartialEq, Eq, Debug)]
pub enum ActRefusal {
    // the text buffer is shorter than an act's line may be
    Short,
    // the part or the sign is not in the job
    NoPlace,
    // the entry is refused
    Lay(LayRefusal),
    // nothing is undone
    Undo(UndoRefusal),
}

// Both by hand: the contracts of `?` go by `from_gives`, and the derive of `thiserror` gives none.
impl From<LayRefusal> for ActRefusal {
    ghost from_gives = { λ why r. r ≡ Lay why };

    fn from(why: LayRefusal) -> ActRefusal {
        ActRefusal::Lay(why)
    }
}

impl From<UndoRefusal> for ActRefusal {
    ghost from_gives = { λ why r. r ≡ Undo why };

    fn from(why: UndoRefusal) -> ActRefusal {
        ActRefusal::Undo(why)
    }
}

impl ActRefusal {
    pub fn number(self) -> u8
        ensures { result ≡ act_number self }
    {
        match self {
            ActRefusal::Short => 1,
            ActRefusal::NoPlace => 18,
            ActRefusal::Lay(refusal) => refusal.number(),
            ActRefusal::Undo(refusal) => refusal.number(),
        }
    }
}
