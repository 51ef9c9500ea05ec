// The acts that change the entries of a legend, and the line that each of them prints.
#![tactic(auto)]

pub mod act;
pub mod change;
pub mod line;
pub mod refusal;
