//! What a row of a report is about.

use crate::line::{Actor, Op};

/// What a row is about: an actor was asked for something. The phase is counted from 1; for an opening or
/// a closing it is the number of phases before it.
#[derive(Clone, Copy, Debug, PartialEq, Eq)]
pub struct Request {
    pub phase: u32,
    pub actor: Actor,
    pub op: Op,
}
