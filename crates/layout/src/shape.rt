// The shape of a file: how many parts and signs its job has, which tells the kind of every block.
ghost use Rattle.std.specs.Prelude.{◌≡◌, ◌<◌};
ghost use Rattle.layout.specs.Places.{acts_start};
ghost use Rattle.layout.specs.Kinds.{kind_of};
ghost use Rattle.layout.specs.Form.{expects, fault_of};

use crate::kind::Kind;
use crate::places::{blocks_for, filled_at, signs_start};
use blocks::block::Expected;
use records::fault::RecordFault;

#[derive(Clone, Copy, PartialEq, Eq, Debug, Default)]
pub struct Shape {
    pub parts: u8,
    pub signs: u8,
}

impl Shape {
    // The first block of the acts.
    pub fn acts_start(self) -> usize
        ensures { result ≡ acts_start self.parts self.signs }
    {
        signs_start(self.parts) + blocks_for(self.signs)
    }

    // The kind of the block b.
    pub fn kind_of(self, b: usize) -> Kind
        ensures { result ≡ kind_of self.parts self.signs b }
    {
        if b == 0 {
            Kind::Head
        } else if b < signs_start(self.parts) {
            Kind::Parts
        } else if b < self.acts_start() {
            Kind::Signs
        } else {
            Kind::Acts
        }
    }

    // What the block b is to be.
    pub(crate) fn expected(self, b: usize) -> Expected
        requires { b < 65536 }
        ensures { result ≡ expects self.parts self.signs b }
    {
        let kind = self.kind_of(b);
        let (fewest, utmost) = match kind {
            Kind::Head => (1, 1),
            Kind::Parts => {
                let count = filled_at(self.parts, b - 1);
                (count, count)
            }
            Kind::Signs => {
                let count = filled_at(self.signs, b - signs_start(self.parts));
                (count, count)
            }
            Kind::Acts => (1, 16),
        };
        Expected {
            kind: kind.letter(),
            place: b,
            fewest,
            utmost,
        }
    }

    // The fault of the record r of the block b, counted from 1.
    pub(crate) fn record_fault(self, b: usize, r: usize) -> RecordFault
        ensures { result ≡ fault_of self.parts self.signs b r }
    {
        match self.kind_of(b) {
            Kind::Head | Kind::Parts | Kind::Signs => RecordFault::Job(b, r),
            Kind::Acts => RecordFault::Act(b, r),
        }
    }
}
