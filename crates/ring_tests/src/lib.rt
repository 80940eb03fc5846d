//! The tests of the rings' crates that stand as code, a module for each crate: seats in threads of their own, random events at a ring
//! and at a core, gates and watches that are handed in, and callers whose proof is the test. They are a crate of their own so that what
//! proves them doesn't prove the libraries again.
#![tactic(auto)]

#[cfg(test)]
mod tests;
