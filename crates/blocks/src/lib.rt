// Blocks of a job file: the check, the layout, and the parts of a block that are its records.
#![tactic(auto)]

pub mod block;
pub mod bytes;
pub mod fault;
