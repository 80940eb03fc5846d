//! The lines of the report that are put together.
ghost use Rattle.std.specs.Prelude.{◌≡◌, ◌++◌, All, IfErr, IfOk, OnOk};
ghost use Rattle.std.specs.List.{flat_map};
ghost use Rattle.lab_report.specs.Text.{IsRowOf, IsTailOf, row_line, tail_text};
ghost use Rattle.lab_stop.specs.declared.stop.Stop.TheVariants as stops;

use lab_lines::{Report, Row, Script};
use lab_report::{print_rows, print_tail};
use lab_stop::Stop;
use std::alloc::Global;

/// The lines of some rows.
pub fn rows_from(alloc: Global, script: &Script, rows: &[Row]) -> Result<Vec<u8>, Stop>
    requires { All (IsRowOf script.now) rows.now }
    ensures text { IfOk result (λ text. text.items ≡ flat_map (row_line script.now) rows.now) }
    ensures only { IfErr result (λ stop. stop ≡ stops.Memory) }
{
    match print_rows(alloc, rows, script) {
        Ok(text) => Ok(text),
        Err(_) => Err(Stop::Memory),
    }
}

/// Appends what is below the rows of a report.
pub fn push_tail(text: &mut Vec<u8>, script: &Script, report: &Report) -> Result<(), Stop>
    requires { IsTailOf script.now report.now }
    ensures ok { OnOk result (text.new.items ≡ text.old.items ++ tail_text script.now report.now) }
    ensures only { IfErr result (λ stop. stop ≡ stops.Memory) }
{
    match print_tail(report, script, text) {
        Ok(()) => Ok(()),
        Err(_) => Err(Stop::Memory),
    }
}
