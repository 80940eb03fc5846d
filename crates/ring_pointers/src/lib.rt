//! The two pointers of a ring buffer, which wrap at a boundary far above the buffer's size.
#![tactic(auto)]

mod pointers;

pub use pointers::Pointers;
