//! dmixlab: mixes the clients of a script as ALSA's dmix does, and reports what was mixed.
#![tactic(auto)]

use lab_commands::dmixlab;
use lab_shelf::{FileShelf, StdSink};
use lab_stop::{Stop, status, tell};
use mix_core::NeverStops;
use std::alloc::Global;
use std::process::ExitCode;
use std::rt::Env;
use std::{env, io};

/// The program's words after its name. One that isn't UTF-8 is no listed word.
fn program_words<R: Env + Alloc<A = Global>>(rt: &R) -> Result<Vec<Vec<u8>>, Stop> {
    let arguments = env::args(rt).map_err(|error| stop_of(&error))?;
    let mut words = Vec::new(rt.alloc());
    for word in arguments.skip(1) {
        words.push(word.into_bytes())?;
    }
    Ok(words)
}

/// Why there are no words.
fn stop_of(error: &io::Error) -> Stop {
    match error.kind() {
        io::ErrorKind::OutOfMemory => Stop::Memory,
        _ => Stop::Words,
    }
}

fn main(rt: HostRuntime) -> ExitCode {
    let alloc = rt.alloc();
    let mut shelf = FileShelf::new(rt);
    let mut out = StdSink::new(rt.stdout());
    let mut errors = StdSink::new(rt.stderr());
    let mut gates = [NeverStops; 128];
    ExitCode::from(match program_words(&rt) {
        Ok(words) => dmixlab(
            &rt,
            alloc,
            &words,
            &mut shelf,
            &mut out,
            &mut errors,
            &mut gates,
        ),
        Err(stop) => {
            tell(alloc, &mut errors, &stop);
            status(&Err(stop))
        }
    })
}
