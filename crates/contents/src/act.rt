// The acts of a job file, in the order in which they are run.

// A part and a sign are told by their places, which need not be in the job.
#[derive(Clone, Copy, PartialEq, Eq, Debug)]
pub enum Act {
    // the part has this sign
    Fix(usize, usize),
    // the part has not this sign
    Bar(usize, usize),
    // the part is signed
    Require(usize),
    // the part is not signed
    LeaveOut(usize),
    // the last entry goes
    Undo,
    // the open signs of each part are listed
    Query,
}
