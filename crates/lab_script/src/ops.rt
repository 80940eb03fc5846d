//! The lines of a phase: what each actor can be asked for, by which words.
ghost use Rattle.std.specs.Prelude.{◌≡◌, ◌≤◌, ◌++◌, OnOk, string_bytes};
ghost use Rattle.lab_script.specs.Causes.{Gives};
ghost use Rattle.text_words.specs.Table.{row_of};
ghost use Rattle.text_words.specs.Lexing.{words_between};
ghost use Rattle.lab_lines.specs.Script.{played_by};
ghost use Rattle.lab_script.specs.Ops.{ops_of, with_count, op_with, op_of, op_word, op_count, op_text};

use crate::causes::{end_of, first_of};
use crate::error::ScriptWhy;
use crate::values::number_in;
use lab_lines::{Actor, Op};
use snd_base::PcmError;
use std::alloc::AllocError;
use text_words::row_of;

/// What follows an op's word: nothing, or a number up to some limit, which takes the place of
/// the op's own.
#[derive(Clone, Copy)]
pub enum Form {
    Plain(Op),
    Counted(Op, u32),
}

/// How many frames an op can ask for.
const FRAMES: u32 = 4_194_304;

/// After how many steps an actor can die.
const STEPS: u32 = 1_000_000;

/// What the card can be asked for.
const CARD_OPS: [(&[u8], Form); 2] = [
    (b"play", Form::Counted(Op::Play(0), FRAMES)),
    (b"unplug", Form::Plain(Op::Unplug)),
];

/// What a client can be asked for.
const CLIENT_OPS: [(&[u8], Form); 13] = [
    (b"write", Form::Counted(Op::Write(0), FRAMES)),
    (b"start", Form::Plain(Op::Start)),
    (b"sync", Form::Plain(Op::Sync)),
    (b"avail", Form::Plain(Op::Avail)),
    (b"delay", Form::Plain(Op::Delay)),
    (b"drain", Form::Plain(Op::Drain)),
    (b"drop", Form::Plain(Op::Drop)),
    (b"prepare", Form::Plain(Op::Prepare)),
    (b"pause", Form::Plain(Op::Pause)),
    (b"resume", Form::Plain(Op::Resume)),
    (b"rewind", Form::Counted(Op::Rewind(0), FRAMES)),
    (b"rewindable", Form::Plain(Op::Rewindable)),
    (b"die", Form::Counted(Op::Die(0), STEPS)),
];

/// What a reader can be asked for.
const READER_OPS: [(&[u8], Form); 8] = [
    (b"read", Form::Counted(Op::Read(0), FRAMES)),
    (b"start", Form::Plain(Op::Start)),
    (b"sync", Form::Plain(Op::Sync)),
    (b"avail", Form::Plain(Op::Avail)),
    (b"drop", Form::Plain(Op::Drop)),
    (b"prepare", Form::Plain(Op::Prepare)),
    (b"pause", Form::Plain(Op::Pause)),
    (b"die", Form::Counted(Op::Die(0), STEPS)),
];

/// What an actor can be asked for by a word.
fn form_of(actor: Actor, word: &[u8]) -> Option<Form>
    ensures { result ≡ row_of (ops_of actor) word.now }
{
    match actor {
        Actor::Card => row_of(&CARD_OPS, word),
        Actor::Client(_) => row_of(&CLIENT_OPS, word),
        Actor::Reader(_) => row_of(&READER_OPS, word),
    }
}

/// An op with this number in it, where it has one.
fn with_count(op: Op, n: u32) -> Op
    ensures { result ≡ with_count op n }
{
    match op {
        Op::Play(_) => Op::Play(n),
        Op::Write(_) => Op::Write(n),
        Op::Read(_) => Op::Read(n),
        Op::Rewind(_) => Op::Rewind(n),
        Op::Die(_) => Op::Die(n),
        other => other,
    }
}

/// The op of a form and what follows the op's own word.
fn op_with(form: Form, words: &[u8]) -> Result<Op, ScriptWhy>
    ensures { Gives (λ o. o) result (op_with form (words_between words.now)) }
{
    match form {
        Form::Plain(op) => {
            end_of(words)?;
            Ok(op)
        }
        Form::Counted(op, most) => {
            let (number, rest) = first_of(words)?;
            let n = number_in(0, u64::from(most), number)?;
            end_of(rest)?;
            Ok(with_count(op, n as u32))
        }
    }
}

/// What is asked for after an actor.
#[tactic(auto, unfolding(crate::specs::Ops::op_of))]
pub fn op_of(actor: Actor, words: &[u8]) -> Result<Op, ScriptWhy>
    ensures { Gives (λ o. o) result (op_of actor (words_between words.now)) }
{
    let (word, rest) = first_of(words)?;
    match form_of(actor, word) {
        None => Err(ScriptWhy::Word),
        Some(form) => op_with(form, rest),
    }
}

/// The frames that the card plays by what is asked for.
pub fn played_by(op: Op) -> u32
    ensures { result ≡ played_by op }
{
    match op {
        Op::Play(frames) => frames,
        _ => 0,
    }
}

/// The word of an op, as a script has it.
fn op_word(op: Op) -> &'static str
    ensures { result.now ≡ op_word op }
{
    match op {
        Op::Play(_) => "play",
        Op::Unplug => "unplug",
        Op::Write(_) => "write",
        Op::Read(_) => "read",
        Op::Start => "start",
        Op::Sync => "sync",
        Op::Avail => "avail",
        Op::Delay => "delay",
        Op::Drain => "drain",
        Op::Drop => "drop",
        Op::Prepare => "prepare",
        Op::Pause => "pause",
        Op::Resume => "resume",
        Op::Rewind(_) => "rewind",
        Op::Rewindable => "rewindable",
        Op::Die(_) => "die",
        Op::Opens => "open",
        Op::Closes => "close",
    }
}

/// The number after an op's word, where it has one.
fn op_count(op: Op) -> Option<u32>
    ensures { result ≡ op_count op }
{
    match op {
        Op::Play(n) | Op::Write(n) | Op::Read(n) | Op::Rewind(n) | Op::Die(n) => Some(n),
        _ => None,
    }
}

/// Appends the words of an op to a text, as a script has them.
///
/// The one error is that memory ran out.
#[tactic(auto, using(crate::proofs::OpTexts::op_text_appended))]
pub fn push_op(op: Op, text: &mut String) -> Result<(), AllocError>
    ensures { OnOk result (string_bytes text.new ≡ string_bytes text.old ++ op_text op) }
{
    text.push_str(op_word(op))?;
    match op_count(op) {
        Some(n) => write!(text, " {n}"),
        None => Ok(()),
    }
}

/// Appends the words of an op to the bytes of a text, as a script has them.
///
/// # Errors
///
/// `Memory`, where memory ran out.
pub fn print_op(op: &Op, text: &mut Vec<u8>) -> Result<(), PcmError>
    ensures { OnOk result (text.new.items ≡ text.old.items ++ op_text op.now) }
{
    let mut words = String::new(*text.allocator());
    push_op(*op, &mut words)?;
    text.extend_from_slice(words.as_bytes())?;
    Ok(())
}
