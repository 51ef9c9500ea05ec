// Two layers over any network, each a network again, and a legend over a legend.
#![tactic(auto)]

pub mod closing;
mod column;
pub mod entries;
pub mod entry;
#[cfg(test)]
mod tests;
pub mod theorems;
