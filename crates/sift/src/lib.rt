// The sift: a lawful flow of any network with a verdict for each line, or a bottleneck that proves that there is none.
#![tactic(auto)]

pub mod memory;
pub mod refusal;
pub mod sift;
mod work;
