//! Numbers and lists of numbers in a configuration.
ghost use Rattle.std.specs.Prelude.{◌≡◌, ◌<◌, ◌^◌, option_map, bytes_eq};
ghost use Rattle.std.specs.Fmt.{decimal};
ghost use Rattle.asound_conf.specs.Device.{number_of_node, number_of_text};
ghost use Rattle.asound_conf.specs.Node.{tree_of};

use crate::node::Node;
use text_words::{are_digits, decimal_of, digits_value};

/// The number that a text is: 1 to 10 decimal digits, below 4294967296.
pub fn number_of(text: &[u8]) -> Option<u32>
    ensures { result ≡ number_of_text text.now }
{
    if text.is_empty() || text.len() > 10 || !are_digits(text) {
        return None;
    }
    let value = digits_value(text);
    if value > 4_294_967_295 {
        return None;
    }
    Some(value as u32)
}

/// The number that a node is.
pub fn number_in(node: Option<Node<'_>>) -> Option<u32>
    ensures { result ≡ number_of_node (option_map tree_of node.entry) }
{
    match node {
        Some(Node::Text(text)) => number_of(text),
        Some(Node::Group(_)) => None,
        None => None,
    }
}

/// Whether a name is the decimal text of a number.
pub fn is_decimal_of(name: &[u8], number: u64) -> bool
    requires { number < 2 ^ 63 }
    ensures { result ≡ bytes_eq name.now (decimal number) }
{
    match decimal_of(number, name) {
        Some(value) => value == number,
        None => false,
    }
}
