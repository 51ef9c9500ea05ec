// The job file: it is read whole, or the first fault is told.
#![tactic(auto)]

pub mod acts;
mod check;
pub mod fault;
pub mod file;
pub mod head;
pub mod input;
pub mod job_network;
mod job_records;
pub mod labels;
pub mod read;
