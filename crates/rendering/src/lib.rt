// The text of a listing: for each part its name, a mark and the signs that are open to it, from the memory of a sift.
#![tactic(auto)]

pub mod shown;
