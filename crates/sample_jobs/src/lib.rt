// The jobs that the programs run on, with the names of their parts and signs.
#![tactic(auto)]

pub mod jobs;
pub mod sample;
