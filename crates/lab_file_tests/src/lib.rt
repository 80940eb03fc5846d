//! The tests of `lab_shelf` and `lab_input`, a module for each. They are a crate of their own so that what proves them doesn't prove the
//! libraries again.
#![tactic(auto)]

#[cfg(test)]
mod tests;
