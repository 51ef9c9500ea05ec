// Numberings from flows, and flows from numberings.
#![tactic(auto)]

pub mod flow;
pub mod number;
#[cfg(test)]
mod tests;
pub mod theorems;
