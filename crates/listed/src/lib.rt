// The listed network: a network told by a list of line records that the caller lends.
#![tactic(auto)]

pub mod lent;
pub mod refusal;
#[cfg(test)]
mod tests;
