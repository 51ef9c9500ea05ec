// The sift at its edges: nothing but tests.
#![tactic(auto)]

#[cfg(test)]
mod tests;
