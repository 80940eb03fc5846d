//! The answers to a request.
ghost use Rattle.std.specs.Prelude.{◌≡◌, ◌++◌, All, IfOk, OnOk, string_bytes};
ghost use Rattle.hw_space.specs.Settled.{IsGreatest, space_left};
ghost use Rattle.hw_space.specs.Widest.{widest};
ghost use Rattle.lab_refine.specs.Answers.{AreAnswers, IsAppended, choice_line, left_line, value_line};
ghost use Rattle.lab_refine.specs.Grammar.{IsAsk, IsSlaveLine};

use crate::params::name;
use crate::request::{Ask, Request, SlaveLine};
use crate::values::{push_interval, push_mask};
use hw_space::{Config, Param, Slave, Space};
use pcm_interval::Empty;
use std::alloc::{AllocError, Global};

/// The slave of a request, as the parameter space takes it.
fn slave_of(line: &SlaveLine) -> Slave
    requires { IsSlaveLine line.now }
    ensures channels { result.channels ≡ line.now.channels }
    ensures rate { result.rate ≡ line.now.rate }
    ensures period { result.period ≡ line.now.period }
    ensures ring { result.ring ≡ line.now.ring }
{
    Slave {
        channels: line.channels,
        rate: line.rate,
        period: line.period,
        ring: line.ring,
    }
}

/// The greatest settled space of a slave's clients. There is one, since the widest space holds a
/// configuration.
fn first_space(slave: &Slave) -> Space
    ensures { IsGreatest (widest slave.now.channels slave.now.rate slave.now.ring) result }
{
    let mut space = Space::widest(slave);
    match space.refine() {
        Ok(_) => space,
        Err(Empty) => unreachable!(),
    }
}

/// Appends the line of a parameter.
fn push_value(text: &mut String, space: &Space, param: Param) -> Result<(), AllocError>
    ensures { OnOk result
        (string_bytes text.new ≡ string_bytes text.old ++ value_line space.now param) }
{
    let name = name(param);
    write!(text, "ok {name} ")?;
    if let Some(mask) = space.mask(param) {
        push_mask(text, &mask)?;
    }
    if let Some(interval) = space.interval(param) {
        push_interval(text, &interval)?;
    }
    writeln!(text)
}

/// Appends the line of a parameter that was narrowed, or that nothing is left.
fn push_left(
    text: &mut String,
    space: &Space,
    param: Param,
    narrowed: &Result<(), Empty>,
) -> Result<(), AllocError>
    ensures { OnOk result (string_bytes text.new
        ≡ string_bytes text.old ++ left_line param (space_left narrowed.now space.now)) }
{
    match narrowed {
        Ok(()) => push_value(text, space, param),
        Err(Empty) => writeln!(text, "empty"),
    }
}

/// Appends the line of a configuration.
fn push_config(text: &mut String, config: &Config) -> Result<(), AllocError>
    ensures { OnOk result
        (string_bytes text.new ≡ string_bytes text.old ++ choice_line config.now) }
{
    let channels = config.channels;
    let rate = config.rate;
    let period = config.period_size;
    let buffer = config.buffer_size;
    let periods = config.periods;
    writeln!(
        text,
        "choice channels {channels} rate {rate} period {period} buffer {buffer} periods {periods}"
    )
}

/// Appends the answer to what a line asks of the space.
fn answer(text: &mut String, space: &mut Space, slave: &Slave, ask: Ask) -> Result<(), AllocError>
    requires { IsAsk ask }
    ensures { OnOk result (IsAppended slave.now.period space.old space.new ask
        (string_bytes text.old) (string_bytes text.new)) }
{
    match ask {
        Ask::Set(param, value) => {
            let narrowed = space.set(param, value);
            push_left(text, space, param, &narrowed)
        }
        Ask::Min(param, value) => {
            let narrowed = space.set_min(param, value);
            push_left(text, space, param, &narrowed)
        }
        Ask::Max(param, value) => {
            let narrowed = space.set_max(param, value);
            push_left(text, space, param, &narrowed)
        }
        Ask::Near(param, value) => {
            let narrowed = space.set_near(param, value);
            push_left(text, space, param, &narrowed)
        }
        Ask::Integer(param) => {
            let narrowed = space.set_integer(param);
            push_left(text, space, param, &narrowed)
        }
        Ask::Show(param) => push_value(text, space, param),
        Ask::Choose => match space.choose(slave) {
            Ok(config) => push_config(text, &config),
            Err(Empty) => writeln!(text, "choice empty"),
        },
    }
}

/// The answers to a request, a line for each that it asks:
///
/// - a line that narrows or shows a parameter is answered `ok PARAM VALUE`, with the parameter as it is
///   afterwards, or `empty` where the narrowing leaves nothing, and then the space is as before;
/// - `choose` is answered `choice channels C rate R period P buffer B periods Q`, or `choice empty`. The
///   period size is chosen nearest to the slave's period. The space stays.
///
/// VALUE of an interval is `[` or, where the end is open, `(`, the least end, `,`, the greatest end, `]` or
/// `)`, and ` integer` where the interval has whole numbers alone. VALUE of an access or a format is its
/// members' numbers, rising, a comma between each two.
///
/// It fails only for want of memory. [`read_request`](crate::read_request) makes requests of which both
/// premises hold.
pub fn answer_request(alloc: Global, request: &Request) -> Result<String, AllocError>
    requires slave { IsSlaveLine request.now.slave }
    requires asks { All IsAsk request.now.asks }
    ensures answers { IfOk result (λ text. AreAnswers request.now (string_bytes text)) }
{
    let slave = slave_of(&request.slave);
    let mut space = first_space(&slave);
    let mut text = String::new(alloc);
    for ask in request.asks.as_slice() {
        answer(&mut text, &mut space, &slave, *ask)?;
    }
    Ok(text)
}
