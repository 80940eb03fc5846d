//! Bindings in a configuration: a group whose names are 0, 1 and so on.
ghost use Rattle.std.specs.Prelude.{◌≡◌, ◌≤◌, option_map, take, IfSome};
ghost use Rattle.asound_conf.specs.Device.{bindings_in, device_bindings, bound, bindings_cause, count_of_names, numbered_values};
ghost use Rattle.asound_conf.specs.Node.{entries_in, tree_of};
ghost use Rattle.bindings.specs.Answers.{answer_of};

use crate::error::ConfWhy;
use crate::node::{Group, Node, count_of, get_number};
use crate::number::number_in;
use bindings::Bindings;
use snd_base::Why;

/// The values of a group whose names are 0, 1 and so on: the first nine of them, and how many these are.
fn values_of(group: Group<'_>) -> Option<([u32; 9], usize)>
    ensures values { option_map (λ v. take v.1 v.0) result
        ≡ option_map (λ list. take 9 list)
        (numbered_values (entries_in group.entry) (count_of_names (entries_in group.entry))) }
    ensures most { IfSome result (λ v. v.1 ≤ 9) }
{
    let count = count_of(group);
    let mut values = [0; 9];
    for place in 0..count {
        let value = number_in(get_number(group, place))?;
        if place < 9 {
            values[place as usize] = value;
        }
    }
    Some((values, count.min(9) as usize))
}

/// Why a list of channels is refused.
fn cause_of(why: Why) -> ConfWhy
    ensures { result ≡ bindings_cause why }
{
    match why {
        Why::BindingsTooMany => ConfWhy::BindingsTooMany,
        Why::BindingRange(channel) => ConfWhy::BindingRange(channel),
        Why::BindingTwice(channel) => ConfWhy::BindingTwice(channel),
        _ => ConfWhy::BindingsEmpty,
    }
}

/// The bindings of a list of channels.
fn bind(list: &[u32], channels: u8) -> Result<Option<Bindings>, ConfWhy>
    ensures { result ≡ bound (answer_of list.now channels) }
{
    match Bindings::read(list, channels) {
        Ok(bindings) => Ok(Some(bindings)),
        Err(why) => Err(cause_of(why)),
    }
}

/// The bindings of a group of channels.
fn group_bindings(group: Group<'_>, channels: u8) -> Result<Option<Bindings>, ConfWhy>
    ensures { result ≡ bindings_in
        (numbered_values (entries_in group.entry) (count_of_names (entries_in group.entry)))
        channels }
{
    let (list, count) = values_of(group).ok_or(ConfWhy::BindingKey)?;
    bind(&list[..count], channels)
}

/// The bindings of a device on a card of so many channels.
pub fn read_bindings(node: Option<Node<'_>>, channels: u8) -> Result<Option<Bindings>, ConfWhy>
    ensures { result ≡ device_bindings (option_map tree_of node.entry) channels }
{
    match node {
        Some(Node::Group(group)) => group_bindings(group, channels),
        Some(Node::Text(_)) => Err(ConfWhy::BindingKey),
        None => Ok(None),
    }
}
