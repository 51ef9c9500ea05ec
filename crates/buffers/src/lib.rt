// Memory that the caller lends: a list over lent places, and marks that are blank again when a search ends.
#![tactic(auto)]

pub mod marks;
pub mod places;
