// Why a sift is refused.
ghost use Rattle.std.specs.Prelude.{◌≡◌};
ghost use Rattle.sift.specs.Sifted.{sift_told};
ghost use Rattle.sift.specs.declared.refusal.SiftRefusal.TheVariants.{NoFlow};

use circulation::bottleneck::Bottleneck;

#[derive(Clone, Copy, PartialEq, Eq, Debug)]
pub enum SiftRefusal {
    // a buffer is shorter than the network needs
    Short,
    // no lawful flow exists; demand and supply are those of the bottleneck shown
    NoFlow(u32, u32),
}

impl From<Bottleneck> for SiftRefusal {
    ghost from_gives = { λ b r. r ≡ NoFlow b.demand b.supply };

    fn from(b: Bottleneck) -> SiftRefusal {
        SiftRefusal::NoFlow(b.demand, b.supply)
    }
}

impl SiftRefusal {
    pub fn number(self) -> u8
        ensures { result ≡ (sift_told self).0 }
    {
        match self {
            SiftRefusal::Short => 1,
            SiftRefusal::NoFlow(_, _) => 20,
        }
    }
}
