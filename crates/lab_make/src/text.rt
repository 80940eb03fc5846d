//! The text of a workload's script.
ghost use Rattle.std.specs.Prelude.{◌≡◌, ◌++◌, IfOk, OnOk, string_bytes};
ghost use Rattle.lab_make.specs.Lines.{made_text, turn_lines};
ghost use Rattle.text_words.specs.Lexing.{lines_text};

use std::alloc::{AllocError, Global};

/// Appends the two phases of a turn, counted from 1. A client, counted from 0, writes one period of the card and 0 to 32
/// frames more.
fn push_turn(text: &mut String, clients: u32, turn: u32) -> Result<(), AllocError>
    ensures { OnOk result
        (string_bytes text.new ≡ string_bytes text.old ++ lines_text (turn_lines clients turn)) }
{
    text.push_str("phase\n")?;
    for client in 0..clients {
        let frames = 64 + (u64::from(client) + u64::from(turn)) % 33;
        writeln!(text, "c{client} write {frames}")?;
    }
    text.push_str("end\nphase\ncard play 64\nend\n")
}

/// The text of the script of so many clients and turns, as `made.script` has it.
///
/// The card is stereo, at 48,000 Hz, with a period of 64 frames and a ring of 1,024. Each client is
/// opened. In each turn, counted from 1, every client writes 64 frames and `(client + turn) mod 33`
/// more in one phase, and the card plays 64 frames in the next.
///
/// The one error is that memory ran out.
pub fn made_text(alloc: Global, clients: u32, turns: u32) -> Result<String, AllocError>
    ensures { IfOk result (λ text. string_bytes text ≡ made_text clients turns) }
{
    let mut text = String::from_str(
        alloc,
        "card channels 2 rate 48000 period 64 ring 1024 places 64\n",
    )?;
    for client in 0..clients {
        writeln!(text, "client c{client} made-{client}.wav")?;
    }
    for opened in 0..clients {
        writeln!(text, "open c{opened}")?;
    }
    for turn in 0..turns {
        push_turn(&mut text, clients, turn + 1)?;
    }
    Ok(text)
}
