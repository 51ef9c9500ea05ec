// The theorems on standing entries. Nothing here is run: each function's contract is a theorem, and its check is the proof.
ghost use Rattle.layers.specs.Present.{StandingEntriesGivePresentBounds, LayingKeepsEntriesStanding, UndoingKeepsEntriesStanding};

// While entries stand that calls have left, a line's least is the highest of the least below and the standing "at least" amounts
// on it, and its most the lowest of the most below and the "at most" amounts.
pub fn standing_entries_give_present_bounds()
    ensures { StandingEntriesGivePresentBounds }
{}

// Laying then goes by these bounds, and leaves entries of that sort again.
pub fn laying_keeps_entries_standing()
    ensures { LayingKeepsEntriesStanding }
{}

// So does an undo.
pub fn undoing_keeps_entries_standing()
    ensures { UndoingKeepsEntriesStanding }
{}
