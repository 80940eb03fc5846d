//! The files of cases that are run, and how many cases went as they must.
use crate::reader::{Reader, Tally};
use std::alloc::Global;
use std::fs::Files;
use std::io::Write;
use std::marker::Sync;
use std::process::ExitCode;
use std::thread::Threads;
use std::{fs, io};

/// What was run so far, and which cases are run: those whose names have the text, or are the one behind `=`.
pub(crate) struct Corpus {
    picked: String,
    passed: usize,
    failed: usize,
}

impl Drop for Corpus {
    fn drop(self) {
        let Corpus {
            picked: _,
            passed: _,
            failed: _,
        } = self;
    }
}

/// A path without the folder `data/`.
fn short_name(path: &str) -> &str {
    path.strip_prefix("data/").unwrap_or(path)
}

/// Puts how many cases of a file passed and failed.
fn put_tally<W: Write>(out: &mut W, file: &str, tally: &Tally) -> io::Result<()> {
    let (passed, failed) = (tally.passed, tally.failed);
    if !tally.must_fail {
        return writeln!(out, "{file}: {passed} passed, {failed} failed");
    }
    writeln!(out, "{file}: {failed} failed, as they must")?;
    if passed > 0 {
        writeln!(out, "{file}: {passed} passed, and must fail")?;
    }
    Ok(())
}

impl Corpus {
    /// Nothing was run yet, and every case is picked.
    pub(crate) fn new(alloc: Global) -> Corpus {
        Corpus {
            picked: String::new(alloc),
            passed: 0,
            failed: 0,
        }
    }

    /// Takes a word of the command: a text after `=`, or a file.
    pub(crate) fn take_word<R: Threads + Sync + Files + Alloc<A = Global>, W: Write>(
        &mut self,
        rt: &R,
        out: &mut W,
        word: &str,
    ) -> io::Result<()> {
        if let Some(text) = word.strip_prefix("=") {
            self.picked = String::from_str(rt.alloc(), text)?;
            return Ok(());
        }
        self.run_file(rt, out, word)
    }

    /// Runs the cases of a file.
    fn run_file<R: Threads + Sync + Files + Alloc<A = Global>, W: Write>(
        &mut self,
        rt: &R,
        out: &mut W,
        path: &str,
    ) -> io::Result<()> {
        let file = short_name(path);
        let Ok(text) = fs::read_to_string(rt, path) else {
            self.failed = self.failed.wrapping_add(1);
            return writeln!(out, "{file}: it can't be read, or is no text");
        };
        let mut reader = Reader::new(rt.alloc(), file, self.picked.as_str());
        reader.read_all(rt, rt.alloc(), text.as_str())?;
        let tally = reader.tally();
        out.write_all(tally.findings.as_bytes())?;
        put_tally(out, file, tally)?;
        if tally.must_fail {
            self.failed = self.failed.wrapping_add(tally.passed);
        } else {
            self.passed = self.passed.wrapping_add(tally.passed);
            self.failed = self.failed.wrapping_add(tally.failed);
        }
        Ok(())
    }

    /// Puts how many passed and failed in all, and gives the status: success where none failed.
    pub(crate) fn end<W: Write>(self, out: &mut W) -> io::Result<ExitCode> {
        let (passed, failed) = (self.passed, self.failed);
        writeln!(out, "sessions: {passed} passed, {failed} failed")?;
        Ok(if failed == 0 {
            ExitCode::SUCCESS
        } else {
            ExitCode::FAILURE
        })
    }
}
