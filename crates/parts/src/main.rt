//! Runs cases from text files over calls of the libraries that no command shows: a line for each call, its answer behind `=`.
#![tactic(auto)]

mod cores;
mod intervals;
mod reader;
mod reports;
mod states;
mod words;

use reader::Reader;
use std::alloc::Global;
use std::fs::Files;
use std::io::{Error, ErrorKind, Write};
use std::process::ExitCode;
use std::{env, fs, io};

/// Runs the lines of one file, and puts what it found. It gives whether all passed, or, of a broken file, whether none did.
fn run_file<R: Files + Alloc<A = Global>, W: Write>(
    rt: &R,
    out: &mut W,
    path: &str,
    is_broken: bool,
) -> io::Result<bool> {
    let bytes = fs::read(rt, path)?;
    let Ok(text) = str::from_utf8(&bytes) else {
        return Err(Error::from(ErrorKind::InvalidData));
    };
    let file = path.strip_prefix("data/").unwrap_or(path);
    let mut reader = Reader::new(rt.alloc());
    let outcome = reader.read(rt.alloc(), text);
    out.write_all(reader.said.as_bytes())?;
    if let Err(why) = outcome {
        writeln!(out, "{file}: line {}: {}", reader.line, why.text())?;
        return Ok(false);
    }
    let (passed, failed) = (reader.passed, reader.failed);
    writeln!(out, "{file}: {passed} passed, {failed} failed")?;
    Ok(if is_broken { passed == 0 } else { failed == 0 })
}

/// `parts FILE.. [!FILE..]` runs the lines of the files. Each line of a file behind `!` is to fail.
fn main(rt: HostRuntime) -> io::Result<ExitCode> {
    let mut out = rt.stdout();
    let mut is_well = true;
    for word in env::args(&rt)?.skip(1) {
        let path = word.as_str().strip_prefix("!").unwrap_or(word.as_str());
        let is_broken = word.as_str().starts_with("!");
        is_well = run_file(&rt, &mut out, path, is_broken)? && is_well;
    }
    Ok(if is_well {
        ExitCode::SUCCESS
    } else {
        ExitCode::FAILURE
    })
}
