//! The reader of a file of cases, which makes each call as it comes to its line.
use crate::words::{Refusal, word};
use crate::{cores, intervals, reports, states};
use mix_core::Core;
use std::alloc::Global;

/// A file that is read: what was begun in the case so far, the text that lines of content go to, the number of the line that
/// was read last, what is to be said of the lines that failed, and how many passed and failed.
pub(crate) struct Reader {
    core: Option<Core>,
    script: String,
    text: String,
    is_script: bool,
    pub(crate) said: String,
    pub(crate) line: usize,
    pub(crate) passed: usize,
    pub(crate) failed: usize,
}

// One call wherever it is let go.
impl Drop for Reader {
    fn drop(self) {
        let Reader {
            core: _,
            script: _,
            text: _,
            is_script: _,
            said: _,
            line: _,
            passed: _,
            failed: _,
        } = self;
    }
}

impl Reader {
    /// A reader before the first line.
    pub(crate) fn new(alloc: Global) -> Reader {
        Reader {
            core: None,
            script: String::new(alloc),
            text: String::new(alloc),
            is_script: false,
            said: String::new(alloc),
            line: 0,
            passed: 0,
            failed: 0,
        }
    }

    /// Reads a file, and makes its calls.
    pub(crate) fn read(&mut self, alloc: Global, text: &str) -> Result<(), Refusal> {
        for line in text.lines() {
            self.line = self.line.wrapping_add(1);
            if let Some(content) = line.strip_prefix("  ") {
                self.add(content)?;
            } else if !line.is_empty() && !line.starts_with('#') {
                self.call(alloc, line)?;
            }
        }
        Ok(())
    }

    /// A line that is neither content nor a comment.
    fn call(&mut self, alloc: Global, line: &str) -> Result<(), Refusal> {
        match line.rsplit_once(" = ") {
            Some((call, wanted)) => {
                let found = self.answer(alloc, call)?;
                self.compare(wanted, found.as_str())
            }
            None => self.begin(alloc, line),
        }
    }

    /// A line of the script or of the text.
    fn add(&mut self, content: &str) -> Result<(), Refusal> {
        let section = if self.is_script {
            &mut self.script
        } else {
            &mut self.text
        };
        section.push_str(content)?;
        section.push_str("\n")?;
        Ok(())
    }

    /// Counts a line, and says where what was found is not what is wanted.
    fn compare(&mut self, wanted: &str, found: &str) -> Result<(), Refusal> {
        if wanted == found {
            self.passed = self.passed.wrapping_add(1);
            return Ok(());
        }
        self.failed = self.failed.wrapping_add(1);
        let line = self.line;
        writeln!(
            self.said,
            "FAIL line {line}\n  wanted: {wanted}\n  found:  {found}"
        )?;
        Ok(())
    }

    /// A line without an answer: a case, or what its calls are over.
    fn begin(&mut self, alloc: Global, line: &str) -> Result<(), Refusal> {
        let mut rest = line;
        match word(&mut rest) {
            "case" => self.core = None,
            "script" | "text" => {
                self.is_script = line == "script";
                if self.is_script {
                    self.script.clear();
                }
                self.text.clear();
            }
            "core" => self.core = Some(cores::core(alloc, rest)?),
            _ => return Err("a word that isn't known".into()),
        }
        Ok(())
    }

    /// What the call of a line answers.
    fn answer(&mut self, alloc: Global, call: &str) -> Result<String, Refusal> {
        let mut rest = call;
        match word(&mut rest) {
            "call" => cores::replies(alloc, &mut self.core, rest),
            "read" => reports::read(alloc, self.script.as_str(), self.text.as_str(), rest),
            "next" => states::outcome(alloc, rest),
            "row" => states::row(alloc, rest),
            verb => intervals::combined(alloc, verb, rest),
        }
    }
}
