// A search backwards from the nodes that lack something, over steps with room: which nodes can send more to them, and how far away they stand.
#![tactic(auto)]

pub mod levels;
pub mod load;
pub mod room;
