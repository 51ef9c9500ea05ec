// One series of signs: the network of a job's parts and signs, its legend, and the judge of a numbering by hand.
#![tactic(auto)]

pub mod judge;
pub mod legend;
pub mod lines;
pub mod load;
pub mod one_series;
pub mod records;
#[cfg(test)]
mod tests;
