//! The report of a run: what each line of a script was answered, which samples were committed where,
//! what readers took, and the text that says so, printed and read.
#![tactic(auto)]

mod answers;
mod error;
mod lines;
mod numbers;
mod places;
mod print;
mod ranges;
mod reader;
mod request;
mod rows;
mod tail;
mod text;
mod words;

pub use error::{ReportError, ReportWhy};
pub use lab_lines::{Answer, Report, Request, Row, Rows, Runs, Segments};
pub use print::{print_report, print_row, print_rows, print_tail};
pub use ranges::numbers_are_in_range;
pub use reader::read_report;
pub use request::requests_of;
