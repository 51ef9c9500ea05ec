// The kinds of blocks.
ghost use Rattle.std.specs.Prelude.{◌≡◌};
ghost use Rattle.layout.specs.Kinds.{letter_of};

#[derive(Clone, Copy, PartialEq, Eq, Debug)]
pub enum Kind {
    Head,
    Parts,
    Signs,
    Acts,
}

impl Kind {
    // The byte that a block of this kind begins with.
    pub fn letter(self) -> u8
        ensures { result ≡ letter_of self }
    {
        match self {
            Kind::Head => b'J',
            Kind::Parts => b'P',
            Kind::Signs => b'S',
            Kind::Acts => b'A',
        }
    }
}
