//! The dmix, dsnoop and dshare devices that a configuration defines.
ghost use Rattle.std.specs.Prelude.{◌≡◌, ◌<◌, ◌≤◌, ◌+◌, ◌^◌, option_map, IfOk};
ghost use Rattle.asound_conf.specs.Device.{IsCard, as_group, card_of_slave, definition_of, device_by, field, format_of, frames_in_time, device_kind, slave_numbers, or_default, slave_period, slave_ring, device_slave};
ghost use Rattle.asound_conf.specs.Answer.{answer_view};
ghost use Rattle.asound_conf.specs.Tree.{get};
ghost use Rattle.asound_conf.specs.Node.{entries_in, tree_of};

use crate::channels::read_bindings;
use crate::error::ConfWhy;
use crate::node::{Group, Node, get};
use crate::number::number_in;
use bindings::Bindings;

/// The type of a device.
#[derive(Clone, Copy, Debug, PartialEq, Eq)]
pub enum DeviceKind {
    /// Mixes what several clients play.
    Dmix,
    /// Lets several clients record the same.
    Dsnoop,
    /// Gives channels of the card to one client each.
    Dshare,
}

/// A device: its card, and to which of the card's channels its own go.
#[derive(Clone, Copy, Debug, PartialEq, Eq)]
pub struct Device {
    pub kind: DeviceKind,
    /// How many channels the card has, 1 to 8.
    pub channels: u8,
    /// Frames a second, 4000 to 192000.
    pub rate: u32,
    /// The card's period in frames, at least 16, which divides the ring at least twice.
    pub period: u32,
    /// The card's ring in frames, 64 to 16384.
    pub ring: u32,
    /// To which of the card's channels each channel of the device goes, where the definition says it.
    pub bindings: Option<Bindings>,
}

/// The number fields of a slave, each 0 where it isn't given.
#[derive(Clone, Copy)]
pub struct Numbers {
    pub channels: u32,
    pub rate: u32,
    /// In frames.
    pub period_size: u32,
    /// In microseconds.
    pub period_time: u32,
    /// In frames.
    pub buffer_size: u32,
    pub periods: u32,
    /// In microseconds.
    pub buffer_time: u32,
}

/// A card's numbers in their ranges.
#[derive(Clone, Copy)]
pub struct Card {
    pub channels: u8,
    pub rate: u32,
    pub period: u32,
    pub ring: u32,
}

/// The group that a node is.
fn as_group(node: Option<Node<'_>>) -> Result<Group<'_>, ConfWhy>
    ensures { answer_view entries_in result
        ≡ as_group (option_map tree_of node.entry) }
{
    match node {
        Some(Node::Group(group)) => Ok(group),
        Some(Node::Text(_)) => Err(ConfWhy::Missing),
        None => Err(ConfWhy::Missing),
    }
}

/// The group `kind.name`.
#[tactic(auto, unfolding(crate::specs::Device::definition_of))]
fn defined<'a>(kind: &[u8], name: &[u8], root: Group<'a>) -> Result<Group<'a>, ConfWhy>
    ensures { answer_view entries_in result
        ≡ definition_of kind.now name.now (entries_in root.entry) }
{
    let all = as_group(get(root, kind))?;
    as_group(get(all, name))
}

/// The slave of a device's definition.
fn slave_of<'a>(root: Group<'a>, node: Option<Node<'a>>) -> Result<Group<'a>, ConfWhy>
    ensures { answer_view entries_in result
        ≡ device_slave (entries_in root.entry) (option_map tree_of node.entry) }
{
    match node {
        Some(Node::Group(group)) => Ok(group),
        Some(Node::Text(name)) => defined(b"pcm_slave", name, root),
        None => Err(ConfWhy::Missing),
    }
}

/// The kind of device that a definition's type is.
fn kind_of(node: Option<Node<'_>>) -> Result<DeviceKind, ConfWhy>
    ensures { result ≡ device_kind (option_map tree_of node.entry) }
{
    match node {
        Some(Node::Text(name)) => {
            if name == b"dmix".as_slice() {
                Ok(DeviceKind::Dmix)
            } else if name == b"dsnoop".as_slice() {
                Ok(DeviceKind::Dsnoop)
            } else if name == b"dshare".as_slice() {
                Ok(DeviceKind::Dshare)
            } else {
                Err(ConfWhy::PluginType)
            }
        }
        Some(Node::Group(_)) => Err(ConfWhy::PluginType),
        None => Err(ConfWhy::PluginType),
    }
}

/// Whether a format is given that isn't 16 bits, little-endian.
fn check_format(node: Option<Node<'_>>) -> Result<(), ConfWhy>
    ensures { result ≡ format_of (option_map tree_of node.entry) }
{
    match node {
        Some(Node::Text(name)) => {
            if name == b"S16_LE".as_slice() || name == b"S16".as_slice() {
                Ok(())
            } else {
                Err(ConfWhy::Format)
            }
        }
        Some(Node::Group(_)) => Err(ConfWhy::Format),
        None => Ok(()),
    }
}

/// A number field of a slave, 0 where it isn't given.
fn field(name: &[u8], slave: Group<'_>) -> Result<u32, ConfWhy>
    ensures { result ≡ field name.now (entries_in slave.entry) }
{
    match get(slave, name) {
        Some(node) => number_in(Some(node)).ok_or(ConfWhy::Number),
        None => Ok(0),
    }
}

/// The number fields of a slave.
#[tactic(auto, unfolding(crate::specs::Device::slave_numbers))]
fn numbers_of(slave: Group<'_>) -> Result<Numbers, ConfWhy>
    ensures { result ≡ slave_numbers (entries_in slave.entry) }
{
    let channels = field(b"channels", slave)?;
    let rate = field(b"rate", slave)?;
    let period_size = field(b"period_size", slave)?;
    let period_time = field(b"period_time", slave)?;
    let buffer_size = field(b"buffer_size", slave)?;
    let periods = field(b"periods", slave)?;
    let buffer_time = field(b"buffer_time", slave)?;
    Ok(Numbers {
        channels,
        rate,
        period_size,
        period_time,
        buffer_size,
        periods,
        buffer_time,
    })
}

/// A number, or another one where it isn't given.
fn or_default(number: u64, other: u64) -> u64
    ensures { result ≡ or_default number other }
{
    if number == 0 { other } else { number }
}

/// How many frames a time in microseconds is.
fn frames_in(rate: u64, time: u32) -> u64
    requires { rate < 2 ^ 32 }
    ensures value { result ≡ frames_in_time rate time }
    ensures bound { result < 2 ^ 64 }
{
    rate * u64::from(time) / 1_000_000
}

/// The period in frames.
fn period_of(numbers: &Numbers, rate: u64) -> u64
    requires { rate < 2 ^ 32 }
    ensures value { result ≡ slave_period numbers.now rate }
    ensures given { 0 < numbers.now.period_size → result < 2 ^ 32 }
{
    let computed = if numbers.period_time == 0 {
        1024
    } else {
        frames_in(rate, numbers.period_time)
    };
    or_default(u64::from(numbers.period_size), computed)
}

/// The ring in frames.
fn ring_of(numbers: &Numbers, rate: u64, period: u64) -> u64
    requires rate { rate < 2 ^ 32 }
    requires period { period < 2 ^ 32 }
    ensures { result ≡ slave_ring numbers.now rate period }
{
    let computed = if numbers.periods != 0 {
        period * u64::from(numbers.periods)
    } else if numbers.buffer_time != 0 {
        frames_in(rate, numbers.buffer_time)
    } else {
        8 * period
    };
    or_default(u64::from(numbers.buffer_size), computed)
}

/// The card of a slave's numbers.
fn card_of(numbers: &Numbers) -> Result<Card, ConfWhy>
    ensures value { result ≡ card_of_slave numbers.now }
    ensures ranges { IfOk result (λ c. IsCard c.channels c.rate c.period c.ring) }
{
    let channels = or_default(u64::from(numbers.channels), 2);
    let rate = or_default(u64::from(numbers.rate), 48_000);
    if !(1 <= channels && channels <= 8 && 4000 <= rate && rate <= 192_000) {
        return Err(ConfWhy::Range);
    }
    let period = period_of(numbers, rate);
    if !(16 <= period && (0 < numbers.period_size || period <= 16_384)) {
        return Err(ConfWhy::Range);
    }
    let ring = ring_of(numbers, rate, period);
    if !(64 <= ring && ring <= 16_384) {
        return Err(ConfWhy::Range);
    }
    if !(period <= ring / 2 && ring % period == 0) {
        return Err(ConfWhy::Fit);
    }
    Ok(Card {
        channels: channels as u8,
        rate: rate as u32,
        period: period as u32,
        ring: ring as u32,
    })
}

/// The device of this name, or why there is none.
#[tactic(auto, unfolding(crate::specs::Device::device_by))]
pub fn device_by(root: Group<'_>, name: &[u8]) -> Result<Device, ConfWhy>
    ensures value { result ≡ device_by (entries_in root.entry) name.now }
    ensures card { IfOk result (λ d. IsCard d.channels d.rate d.period d.ring) }
{
    let definition = defined(b"pcm", name, root)?;
    let slave = slave_of(root, get(definition, b"slave"))?;
    let kind = kind_of(get(definition, b"type"))?;
    check_format(get(slave, b"format"))?;
    let numbers = numbers_of(slave)?;
    let card = card_of(&numbers)?;
    let bindings = read_bindings(get(definition, b"bindings"), card.channels)?;
    Ok(Device {
        kind,
        channels: card.channels,
        rate: card.rate,
        period: card.period,
        ring: card.ring,
        bindings,
    })
}
