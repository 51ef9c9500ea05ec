// Why a list of records is refused.
ghost use Rattle.std.specs.Prelude.{◌≡◌};
ghost use Rattle.listed.specs.Refusal.{told};

#[derive(Clone, Copy, PartialEq, Eq, Debug)]
pub enum ListedRefusal {
    // fewer records than lines
    Short,
    // too many nodes or lines
    TooLarge,
    // the first line, by its place, whose ends are not both nodes or whose least is above its most
    BadLine(usize),
}

impl ListedRefusal {
    pub fn number(self) -> u8
        ensures { result ≡ (told self).0 }
    {
        match self {
            ListedRefusal::Short => 1,
            ListedRefusal::TooLarge => 6,
            ListedRefusal::BadLine(_) => 7,
        }
    }
}
