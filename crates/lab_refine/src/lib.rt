//! The answers to a text that narrows, line by line, the hardware parameters which a slave leaves
//! to its clients: [`read_request`] reads such a text, [`answer_request`] answers it, and
//! [`refine_file`] answers the text in a file of a shelf.
#![tactic(auto)]

mod answers;
mod file;
mod grammar;
mod params;
mod place;
mod reader;
mod request;
mod values;

pub use answers::answer_request;
pub use file::refine_file;
pub use reader::read_request;
pub use request::{Ask, Asks, Request, SlaveLine};
