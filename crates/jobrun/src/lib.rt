// Runs a whole job file: its acts on the closed network of its job, or the line that tells its fault.
#![tactic(auto)]

mod fault;
mod file_acts;
pub mod run;
