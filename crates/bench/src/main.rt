//! bench: what the scripts of the folder bench/ time, each under a word of its own.
#![tactic(auto)]

mod conf;
mod copy;
mod plug;
mod report;
mod script;
mod snoop;
mod sum;
mod wav;

use lab_shelf::FileShelf;
use std::alloc::Global;
use std::rt::Env;
use std::{env, io};

/// A text is read so often; the fastest counts.
pub(crate) const ROUNDS: u32 = 9;

/// The words, and what follows each.
const HELP: &str = "bench copy IN [OUT]
bench wav read|write
bench conf FILE
bench plug FROM TO FORMAT INPUTS OUTPUTS IN_RATE OUT_RATE PIECE ROUNDS
bench script FILE
bench report SCRIPT REPORT
bench sum time
bench snoop time";

/// The program's words after its name.
fn words<R: Env + Alloc<A = Global>>(rt: &R) -> io::Result<Vec<String>> {
    let mut words = Vec::new(rt.alloc());
    for word in env::args(rt)?.skip(1) {
        words.push(word)?;
    }
    Ok(words)
}

/// `bench WORD ..` does what the word's module says. Without a word it prints what it can be called with. It ends with an error
/// where nothing is called so, and where what was called does.
fn main(rt: HostRuntime) -> io::Result<()> {
    let words = words(&rt)?;
    let Some((word, rest)) = words.split_first() else {
        return println!(rt; "{HELP}");
    };
    match word.as_str() {
        "copy" => copy::run(&mut FileShelf::new(rt), rt.alloc(), rest),
        "wav" => wav::run(rt.alloc(), rest),
        "conf" => conf::run(&rt, rest),
        "plug" => plug::run(&rt, rest),
        "script" => script::run(&rt, rest),
        "report" => report::run(&rt, rest),
        "sum" => sum::run(&rt, rest),
        "snoop" => snoop::run(&rt, rest),
        _ => Err(io::ErrorKind::InvalidInput.into()),
    }
}
