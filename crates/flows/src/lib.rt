// The theorems on lawful flows. Nothing here is run: each function's contract is a theorem, and its check is the proof.
#![tactic(auto)]

ghost use Rattle.flows.specs.Theorems.{EnteringEqualsLeaving, BottleneckExcludesFlows, StuckSearchLeavesBottleneck};
ghost use Rattle.flows.specs.Theorems.{ClosedSetFixesFromAbove, ClosedSetFixesFromBelow, WayRoundFrees};
ghost use Rattle.flows.specs.Theorems.{PushKeepsBoundsAndLowersExcess, SameMeaningSameFlows};

// What enters any set of nodes in a lawful flow leaves it.
pub fn entering_equals_leaving()
    ensures { EnteringEqualsLeaving }
{}

// Where there is a bottleneck there is no lawful flow.
pub fn bottleneck_excludes_flows()
    ensures { BottleneckExcludesFlows }
{}

// A search for a way from a node with something to spare to a lacking one, when it is stuck, leaves a bottleneck.
pub fn stuck_search_leaves_bottleneck()
    ensures { StuckSearchLeavesBottleneck }
{}

// No lawful flow carries more over a line into a closed set.
pub fn closed_set_fixes_from_above()
    ensures { ClosedSetFixesFromAbove }
{}

// No lawful flow carries less over a line out of a closed set.
pub fn closed_set_fixes_from_below()
    ensures { ClosedSetFixesFromBelow }
{}

// A line with room and a way back without it is free.
pub fn way_round_frees()
    ensures { WayRoundFrees }
{}

// A push along a trail keeps the bounds, and what is to spare in all falls by what is pushed.
pub fn push_keeps_bounds_and_lowers_excess()
    ensures { PushKeepsBoundsAndLowersExcess }
{}

// Networks of the same meaning have the same lawful flows, demands, supplies, fixed lines and free lines.
pub fn same_meaning_same_flows()
    ensures { SameMeaningSameFlows }
{}
