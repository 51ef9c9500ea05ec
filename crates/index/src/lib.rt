// The working copy of a network that a search goes over: its lines in lent memory, and the steps that leave each node.
#![tactic(auto)]

pub mod copy;
pub mod graph;
pub mod rows;
pub mod step;
