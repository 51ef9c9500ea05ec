// Walks from nodes with something to spare down to lacking nodes, and pushes along them.
#![tactic(auto)]

mod descent;
mod phase;
mod push;
pub mod repair;
mod walk;
