//! Reports that are read and printed.
use crate::words::Refusal;
use lab_report::{print_report, read_report};
use lab_script::read_script;
use std::alloc::Global;

/// Appends a text in which `\n` and `\r` stand for these bytes.
fn push_escaped(whole: &mut String, text: &str) -> Result<(), Refusal> {
    let mut is_first = true;
    for piece in text.split('\\') {
        if is_first {
            whole.push_str(piece)?;
        } else if let Some(rest) = piece.strip_prefix("n") {
            whole.push_str("\n")?;
            whole.push_str(rest)?;
        } else {
            whole.push_str("\r")?;
            whole.push_str(piece.strip_prefix("r").ok_or("a letter is expected")?)?;
        }
        is_first = false;
    }
    Ok(())
}

/// `read TEXT`: reads the text so far with this one behind it, in which `\n` and `\r` stand for these bytes, as the report of
/// the script. `ok` says that it was read, and is printed as it was.
pub(crate) fn read(alloc: Global, script: &str, text: &str, more: &str) -> Result<String, Refusal> {
    let mut whole = String::from_str(alloc, text)?;
    push_escaped(&mut whole, more)?;
    let Ok(script) = read_script(alloc, script.as_bytes()) else {
        return Err("the script can't be read".into());
    };
    let report = match read_report(alloc, whole.as_bytes(), &script) {
        Ok(report) => report,
        Err(error) => return Ok(format!(in alloc; "{error}")?),
    };
    let Ok(printed) = print_report(alloc, &report, &script) else {
        return Err("no memory is left".into());
    };
    let is_same = printed.as_slice() == whole.as_bytes();
    Ok(String::from_str(alloc, if is_same { "ok" } else { "printed otherwise" })?)
}
