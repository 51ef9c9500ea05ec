// Layers over a listed network: nothing but tests.
#![tactic(auto)]

#[cfg(test)]
mod tests;
