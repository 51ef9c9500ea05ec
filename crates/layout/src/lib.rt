// The layout of a job file: which block and record stands where, and whether each is of its kind.
#![tactic(auto)]

pub mod form;
pub mod kind;
pub mod places;
pub mod shape;
