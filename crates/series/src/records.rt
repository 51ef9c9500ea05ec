// The parts and signs of a job: the records handed over at loading, and what the network keeps of a part.
ghost use Rattle.std.specs.Prelude.{◌≡◌, ◌<◌};
ghost use Rattle.series.specs.Job.{allows, fewest, utmost};
ghost use Rattle.series.specs.Load.{Names};

// Whether a part is to be signed.
#[derive(Clone, Copy, PartialEq, Eq, Debug, Default)]
pub enum Standing {
    #[default]
    LeftOut,
    Optional,
    Required,
}

// A byte that names no standing.
#[derive(Clone, Copy, PartialEq, Eq, Debug)]
pub struct UnknownStanding;

impl TryFrom<u8> for Standing {
    type Error = UnknownStanding;

    ghost try_from_gives = { Names };

    fn try_from(byte: u8) -> Result<Standing, UnknownStanding> {
        match byte {
            0 => Ok(Standing::LeftOut),
            1 => Ok(Standing::Optional),
            2 => Ok(Standing::Required),
            _ => Err(UnknownStanding),
        }
    }
}

impl Standing {
    // The least that may enter the part.
    pub(crate) fn fewest(self) -> u16
        ensures { result ≡ fewest self }
    {
        u16::from(self == Standing::Required)
    }

    // The most that may enter it.
    pub(crate) fn utmost(self) -> u16
        ensures { result ≡ utmost self }
    {
        u16::from(self != Standing::LeftOut)
    }
}

// A part as it is handed over: bit s of the mask allows sign s; the standing is 0 left out, 1 optional, 2 required.
#[derive(Clone, Copy, Default)]
pub struct PartRecord {
    pub mask: u64,
    // a byte, since what a caller hands over may hold any
    pub standing: u8,
}

// A sign: how often it is used at least and at most.
#[derive(Clone, Copy, Default)]
pub struct SignRecord {
    pub least: u8,
    pub most: u8,
}

// A part as the network keeps it.
#[derive(Clone, Copy, Default)]
pub struct Part {
    pub mask: u64,
    pub standing: Standing,
}

impl Part {
    // Whether the mask allows the sign.
    pub(crate) fn allows(self, sign: usize) -> bool
        requires { sign < 64 }
        ensures { result ≡ allows self.mask sign }
    {
        (self.mask >> sign) % 2 == 1
    }
}
