// A line held in memory: four numbers of 16 bits.
ghost use Rattle.std.specs.Prelude.{◌≡◌};

#[derive(Clone, Copy, PartialEq, Eq, Debug, Default)]
pub struct LineRecord {
    pub tail: u16,
    pub head: u16,
    pub least: u16,
    pub most: u16,
}

impl LineRecord {
    pub const fn new(tail: u16, head: u16, least: u16, most: u16) -> LineRecord
        ensures { result ≡ record { tail = tail; head = head; least = least; most = most } }
    {
        LineRecord {
            tail,
            head,
            least,
            most,
        }
    }
}
