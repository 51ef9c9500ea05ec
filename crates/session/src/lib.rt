// A session: calls made on a fresh entries layer over a network, and the promise that holds for every list of them.
#![tactic(auto)]

mod play;
pub mod run;
pub mod turn;
