//! Times the printing and the reading of a report.

use crate::ROUNDS;
use lab_report::{print_report, read_report};
use lab_script::read_script;
use std::alloc::Global;
use std::fs::Files;
use std::time::{Clock, Instant};
use std::{fs, io};

/// The nanoseconds of one reading and one printing of a report, and whether what was printed is what was read.
fn time_both<R: Clock + Alloc<A = Global>>(
    rt: &R,
    script: &[u8],
    text: &[u8],
) -> io::Result<Option<(u128, u128, bool)>> {
    let Ok(script) = read_script(rt.alloc(), script) else {
        return Ok(None);
    };
    let start = Instant::now(rt)?;
    let Ok(report) = read_report(rt.alloc(), text, &script) else {
        return Ok(None);
    };
    let reading = start.elapsed(rt)?.as_nanos();
    let start = Instant::now(rt)?;
    let Ok(bytes) = print_report(rt.alloc(), &report, &script) else {
        return Ok(None);
    };
    let printing = start.elapsed(rt)?.as_nanos();
    Ok(Some((reading, printing, bytes.as_slice() == text)))
}

/// `bench report SCRIPT REPORT` prints the nanoseconds of the fastest of some readings of a report and of the fastest of some
/// printings of it, and `ok`, or `refused`. An error comes where there aren't two words, and where a file or the clock can't be
/// read.
pub(crate) fn run<R: Clock + Files + Print + Alloc<A = Global>>(
    rt: &R,
    words: &[String],
) -> io::Result<()> {
    let [script, report] = words else {
        return Err(io::ErrorKind::InvalidInput.into());
    };
    let script = fs::read(rt, script.as_str())?;
    let text = fs::read(rt, report.as_str())?;
    let mut reading = u128::MAX;
    let mut printing = u128::MAX;
    for _ in 0..ROUNDS {
        let Some((read, printed, true)) = time_both(rt, script.as_slice(), text.as_slice())? else {
            return println!(rt; "refused");
        };
        reading = reading.min(read);
        printing = printing.min(printed);
    }
    println!(rt; "{reading} {printing} ok")
}
