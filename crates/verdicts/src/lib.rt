// From any lawful flow of a network held in memory: which lines are fixed, and which are free.
#![tactic(auto)]

mod lent;
pub mod lines;
mod search;
pub mod verdict;
