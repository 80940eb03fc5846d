//! The tests of the program's runs whose clients and readers are stopped or held back by gates. They are a crate of their own so that what proves them doesn't prove the program again.
#![tactic(auto)]

#[cfg(test)]
mod tests;
