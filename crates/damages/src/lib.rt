// Tests of the reader on damaged job files: each number at the first and the last place where it can come, and neighbouring checks.
#![tactic(auto)]

#[cfg(test)]
mod tests;
