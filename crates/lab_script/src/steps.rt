//! What one more line makes of a script that is read as far as that line.
ghost use Rattle.std.specs.Prelude.{◌≡◌, ◌≤◌};
ghost use Rattle.lab_script.specs.Causes.{Gives};
ghost use Rattle.lab_script.specs.Draft.{view, border_of, with_phase, with_line, with_words, outside, inside, is_beside, ends_lap};
ghost use Rattle.text_words.specs.Table.{row_of};
ghost use Rattle.lab_script.specs.Draft.{keywords};
ghost use Rattle.lab_lines.specs.Script.{is_of_card, is_unplug};
ghost use Rattle.text_words.specs.Lexing.{words_between};

use crate::causes::{end_of, first_of, refuse_if};
use crate::client::{add_client, add_reader};
use crate::draft::Draft;
use crate::error::ScriptWhy;
use crate::keyword::{Keyword, keyword_of};
use crate::names::named;
use crate::ops::{op_of, played_by};
use lab_lines::{Actor, CardLine, Item, Line, Op, Phase};
use std::alloc::Global;
use std::mem;
use text_words::next_word;

/// The actor of a line `open NAME` or `close NAME`.
#[tactic(auto, unfolding(crate::specs::Draft::border_of))]
fn border_actor(draft: &Draft, words: &[u8]) -> Result<Actor, ScriptWhy>
    ensures { Gives (λ a. a) result (border_of (view draft.now) (words_between words.now)) }
{
    let (name, rest) = first_of(words)?;
    match named(draft, name) {
        None => Err(ScriptWhy::Word),
        Some(actor) => {
            end_of(rest)?;
            Ok(actor)
        }
    }
}

/// `phase`.
#[tactic(auto, unfolding(crate::specs::Draft::with_phase))]
fn begin_phase(draft: &mut Draft, number: u32, words: &[u8]) -> Result<(), ScriptWhy>
    ensures { Gives (λ u. view draft.new) result
        (with_phase (view draft.old) number (words_between words.now)) }
{
    end_of(words)?;
    if draft.phases >= 4096 {
        return Err(ScriptWhy::TooMany);
    }
    draft.phase = Some(number);
    draft.phases += 1;
    Ok(())
}

/// Whether the card is unplugged by what is asked for.
fn is_unplug(op: Op) -> bool
    ensures { result ≡ is_unplug op }
{
    matches!(op, Op::Unplug)
}

/// Whether it is asked of the card.
fn is_of_card(actor: Actor) -> bool
    ensures { result ≡ is_of_card actor }
{
    matches!(actor, Actor::Card)
}

/// Whether a line of a phase in which the card is unplugged has another line before it.
fn is_beside(before: &[Line], op: Op) -> bool
    ensures { result ≡ is_beside before.now op }
{
    match before {
        [] => false,
        [first, ..] => is_unplug(first.op) || is_unplug(op),
    }
}

/// Whether the card's last lap has no room for a ring after so many frames.
fn ends_lap(card: &CardLine, played: u64) -> bool
    requires { played ≤ 4194304 }
    ensures { result ≡ ends_lap card.now played }
{
    let ring = u64::from(card.ring);
    let first = u64::from(card.lap) * ring;
    4_294_967_295 * ring < first + played + ring
}

/// `ACTOR OP`, in a phase.
#[tactic(auto, unfolding(crate::specs::Draft::with_line))]
fn add_line(draft: &mut Draft, number: u32, actor: Actor, words: &[u8]) -> Result<(), ScriptWhy>
    ensures { Gives (λ u. view draft.new) result
        (with_line (view draft.old) number actor (words_between words.now)) }
{
    let op = op_of(actor, words)?;
    let played = u64::from(draft.played) + u64::from(played_by(op));
    refuse_if(is_beside(draft.lines.as_slice(), op), ScriptWhy::Alone)?;
    refuse_if(draft.gone && is_of_card(actor), ScriptWhy::Unplugged)?;
    if played > 4_194_304 {
        return Err(ScriptWhy::Frames);
    }
    refuse_if(ends_lap(&draft.card, played), ScriptWhy::LapEnd)?;
    draft.lines.push(Line { number, actor, op })?;
    draft.played = played as u32;
    draft.gone = draft.gone || is_unplug(op);
    Ok(())
}

/// A line outside phases.
#[tactic(auto, unfolding(crate::specs::Draft::with_open, crate::specs::Draft::with_close))]
fn outside(
    alloc: Global,
    draft: &mut Draft,
    number: u32,
    word: &[u8],
    words: &[u8],
) -> Result<(), ScriptWhy>
    ensures { Gives (λ u. view draft.new) result
        (outside (view draft.old) number word.now (row_of keywords word.now)
        (words_between words.now)) }
{
    match keyword_of(word) {
        Some(Keyword::Client) => add_client(alloc, draft, number, words),
        Some(Keyword::Reader) => add_reader(alloc, draft, number, words),
        Some(Keyword::Open) => {
            let actor = border_actor(draft, words)?;
            draft.body.push(Item::Opens { number, actor })?;
            Ok(())
        }
        Some(Keyword::Close) => {
            let actor = border_actor(draft, words)?;
            draft.body.push(Item::Closes { number, actor })?;
            Ok(())
        }
        Some(Keyword::Phase) => begin_phase(draft, number, words),
        Some(Keyword::Card | Keyword::End) => Err(ScriptWhy::Order),
        None => match named(draft, word) {
            Some(_) => Err(ScriptWhy::Order),
            None => Err(ScriptWhy::Word),
        },
    }
}

/// A line of a phase.
#[tactic(auto, unfolding(crate::specs::Draft::with_end))]
fn inside(
    alloc: Global,
    draft: &mut Draft,
    number: u32,
    word: &[u8],
    words: &[u8],
) -> Result<(), ScriptWhy>
    ensures { Gives (λ u. view draft.new) result
        (inside (view draft.old) number word.now (row_of keywords word.now)
        (words_between words.now)) }
{
    match keyword_of(word) {
        Some(Keyword::Card) => add_line(draft, number, Actor::Card, words),
        Some(Keyword::End) => {
            end_of(words)?;
            let lines = mem::replace(&mut draft.lines, Vec::new(alloc));
            draft.body.push(Item::Phase(Phase::from_vec(lines)))?;
            draft.phase = None;
            Ok(())
        }
        Some(_) => Err(ScriptWhy::Order),
        None => match named(draft, word) {
            Some(actor) => add_line(draft, number, actor, words),
            None => Err(ScriptWhy::Word),
        },
    }
}

/// A line after the card's.
pub fn add_words(
    alloc: Global,
    draft: &mut Draft,
    number: u32,
    words: &[u8],
) -> Result<(), ScriptWhy>
    ensures { Gives (λ u. view draft.new) result
        (with_words (view draft.old) number (words_between words.now)) }
{
    let Some((word, rest)) = next_word(words) else {
        return Ok(());
    };
    match draft.phase {
        Some(_) => inside(alloc, draft, number, word, rest),
        None => outside(alloc, draft, number, word, rest),
    }
}
