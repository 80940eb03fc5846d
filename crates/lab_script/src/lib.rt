//! Scripts: the card, the clients and readers that it has, and what each of them does in each phase.
#![tactic(auto)]

mod card;
mod causes;
mod client;
mod draft;
mod error;
mod keys;
mod keyword;
mod names;
mod ops;
mod reader;
mod steps;
mod values;
mod word;

pub use error::{ScriptError, ScriptWhy};
pub use lab_lines::{
    Actor, Body, CardLine, ClientLine, Clients, FileName, Item, Line, Name, Op, Phase, ReaderLine,
    Readers, Script, Share, Stop,
};
pub use ops::{print_op, push_op};
pub use reader::read_script;
