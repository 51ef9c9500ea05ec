// Numberings, solutions and flows are the same thing. Nothing here is run: each function's contract is a theorem, and its check
// is the proof.
#![tactic(auto)]

ghost use Rattle.solutions.specs.Theorems.{LawfulNumberingsAreSolutions, LawfulNumberingsAreLawfulFlows, UnderEntriesToo, FixedAndFreeLinesTellNumberings};

// The lawful numberings of a job are exactly the solutions of its rules, said without bytes.
pub fn lawful_numberings_are_solutions()
    ensures { LawfulNumberingsAreSolutions }
{}

// Each lawful numbering is one lawful flow of the network of the whole job, and the reverse.
pub fn lawful_numberings_are_lawful_flows()
    ensures { LawfulNumberingsAreLawfulFlows }
{}

// Lawful under entries as a numbering is the same as lawful under them as a flow.
pub fn numberings_and_flows_obey_entries_alike()
    ensures { UnderEntriesToo }
{}

// A sign is fixed at 0 for a part exactly if no lawful numbering under the entries gives it to that part, and a part's line tells
// whether the part is signed in all of them, in none, or in some.
pub fn fixed_and_free_lines_tell_numberings()
    ensures { FixedAndFreeLinesTellNumberings }
{}
