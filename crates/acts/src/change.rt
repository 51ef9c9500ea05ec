// What an act asks of the entries.
ghost use Rattle.std.specs.Prelude.{◌≡◌};
ghost use Rattle.acts.specs.Changes.{change_of};

use contents::act::Act;

// The act without the query, which changes nothing. A part and a sign are told by their places, which need not be in the job.
#[derive(Clone, Copy, PartialEq, Eq, Debug)]
pub enum Change {
    // the part has this sign
    Fix(usize, usize),
    // the part has not this sign
    Bar(usize, usize),
    // the part is signed
    Require(usize),
    // the part is not signed
    LeaveOut(usize),
    // the last entry goes
    Undo,
}

// The change that an act asks for; none for a query, which is no failure, as a TryFrom would tell it.
pub fn change_of(act: Act) -> Option<Change>
    ensures { result ≡ change_of act }
{
    match act {
        Act::Fix(part, sign) => Some(Change::Fix(part, sign)),
        Act::Bar(part, sign) => Some(Change::Bar(part, sign)),
        Act::Require(part) => Some(Change::Require(part)),
        Act::LeaveOut(part) => Some(Change::LeaveOut(part)),
        Act::Undo => Some(Change::Undo),
        Act::Query => None,
    }
}
