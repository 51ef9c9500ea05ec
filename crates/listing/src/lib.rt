// The listing: the signs that are open to each part, by the lawful flows of any legend.
#![tactic(auto)]

pub mod listing;
pub mod refusal;
pub mod theorems;
