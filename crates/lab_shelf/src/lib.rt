//! Shelves, which hold files by name, and sinks, which take bytes: the two ways by which a program
//! reaches its input and output. Each has a form over real files and streams, and one in memory
//! whose calls can be made to fail.
#![tactic(auto)]

mod edge;
mod entries;
mod fault;
mod input;
mod memory;
mod output;
mod traits;

pub use edge::{FileShelf, StdSink};
pub use fault::ShelfFault;
pub use memory::{MemoryShelf, MemorySink};
pub use traits::{Shelf, Sink};
