// The signs that a listing shows are those of lawful numberings. Nothing here is run: the function's contract is a theorem, and its
// check is the proof.
#![tactic(auto)]

ghost use Rattle.open_signs.specs.Theorem.{ShownSignsAreThoseOfLawfulNumberings};

// What is shown after a part's name is a sign of that part in some numbering lawful under the entries, and every such sign is shown.
pub fn shown_signs_are_those_of_lawful_numberings()
    ensures { ShownSignsAreThoseOfLawfulNumberings }
{}
