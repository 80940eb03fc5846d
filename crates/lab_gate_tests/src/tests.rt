//! Runs with gates.
mod at_once;
mod calls;
mod stops;
