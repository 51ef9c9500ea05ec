// The verdict on a line: every lawful flow carries over it what this one does, or some flow carries another amount.
ghost use Rattle.std.specs.Prelude.{◌≡◌};
ghost use Rattle.verdicts.specs.Number.{number};

#[derive(Clone, Copy, PartialEq, Eq, Debug)]
pub enum Verdict {
    Free,
    Fixed,
}

// The number that stands for it in lent memory.
impl From<Verdict> for u8 {
    ghost from_gives = { λ v r. r ≡ number v };

    fn from(verdict: Verdict) -> u8 {
        match verdict {
            Verdict::Free => 0,
            Verdict::Fixed => 1,
        }
    }
}
