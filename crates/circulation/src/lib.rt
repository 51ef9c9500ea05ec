// A circulation: a lawful flow of a network held in memory, or a bottleneck that proves that there is none.
#![tactic(auto)]

pub mod bottleneck;
pub mod circulate;
mod cut;
mod start;
