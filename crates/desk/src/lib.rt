// The desk: runs a whole list of acts over a legend and its labels, and hands out the transcript.
#![tactic(auto)]

mod append;
mod query;
pub mod run;
mod step;
