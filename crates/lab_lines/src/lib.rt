//! What a script and a report say, as values: the card, clients and readers of a script and what each
//! of them does in each phase; the rows, segments and runs of a report.
#![tactic(auto)]

mod line;
mod name;
mod report;
mod request;
mod row;
mod script;

pub use line::{Actor, Item, Line, Op, Phase};
pub use name::{FileName, Name};
pub use report::{Report, Rows, Runs, Segments};
pub use request::Request;
pub use row::{Answer, Row};
pub use script::{Body, CardLine, ClientLine, Clients, ReaderLine, Readers, Script, Share, Stop};
