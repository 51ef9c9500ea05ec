// What a job file hands out besides its records: the labels of parts and signs, and the acts.
#![tactic(auto)]

pub mod act;
pub mod labels;
