// Records of a job file: the head, parts, signs and acts, each in 30 bytes.
#![tactic(auto)]

pub mod act;
pub mod fault;
pub mod head;
pub mod label;
pub mod part;
pub mod record;
pub mod sign;
