//! Nodes that are borrowed from a configuration.
ghost use Rattle.std.specs.Prelude.{◌≡◌, ◌<◌, ◌≤◌, ◌^◌, length, option_map};
ghost use Rattle.std.specs.Fmt.{decimal};
ghost use Rattle.asound_conf.specs.Device.{count_of_names};
ghost use Rattle.asound_conf.specs.Node.{entries_in, node_of, tree_of};
ghost use Rattle.asound_conf.specs.Table.{text_bytes};
ghost use Rattle.asound_conf.specs.Tree.{get};

use crate::cell::ConfText;
use crate::items::Items;
use crate::table::Table;

/// A group of a configuration, which it borrows: named nodes, in the order in which they were added. No two names in it are
/// the same. Contracts see the group (`entries_in`).
#[derive(Clone, Copy)]
pub struct Group<'a> {
    /// The table of all nodes.
    pub(crate) table: &'a Table,
    /// The number of the group's node.
    pub(crate) number: u32,
}

/// A node of a configuration, which it borrows. Contracts see the node (`tree_of`).
#[derive(Clone, Copy)]
pub enum Node<'a> {
    /// A text, in bytes.
    Text(&'a [u8]),
    /// A group.
    Group(Group<'a>),
}

/// The node of this number.
pub(crate) fn node_of(table: &Table, number: u32) -> Node<'_>
    requires { number < length table.now.rows }
    ensures { tree_of result ≡ node_of table.now.rows number }
{
    match table.text_of(number) {
        Some(text) => Node::Text(text),
        None => Node::Group(Group { table, number }),
    }
}

/// The node of a group that is sought.
fn find<'a>(group: Group<'a>, key: ConfText<'_>) -> Option<Node<'a>>
    ensures { option_map tree_of result ≡ get (text_bytes key.entry) (entries_in group.entry) }
{
    match group.table.find(group.number, key) {
        Some(number) => Some(node_of(group.table, number)),
        None => None,
    }
}

/// The node of this name.
pub(crate) fn get<'a>(group: Group<'a>, name: &[u8]) -> Option<Node<'a>>
    ensures { option_map tree_of result ≡ get name.now (entries_in group.entry) }
{
    find(group, ConfText::Bytes(name))
}

/// The node whose name is this number.
pub(crate) fn get_number<'a>(group: Group<'a>, number: u32) -> Option<Node<'a>>
    ensures { option_map tree_of result ≡ get (decimal number) (entries_in group.entry) }
{
    find(group, ConfText::Number(number))
}

/// How many names a group has.
pub(crate) fn count_of(group: Group<'_>) -> u32
    ensures { result ≡ count_of_names (entries_in group.entry) }
{
    group.table.count(group.number)
}

impl<'a> Group<'a> {
    ghost use Rattle.asound_conf.specs.Items.{items_left, named_nodes};

    /// How many nodes are in the group, without those in groups in it.
    pub fn len(self) -> u32
        ensures { result ≡ count_of_names (entries_in self.entry) }
    {
        count_of(self)
    }

    /// The node of this name, and None where no node in the group has it. A name is one part of a key, also with dots.
    pub fn get(self, name: &[u8]) -> Option<Node<'a>>
        ensures { option_map tree_of result ≡ get name.now (entries_in self.entry) }
    {
        get(self, name)
    }

    /// The nodes in the group with their names, in the order in which they were added.
    pub fn items(self) -> Items<'a>
        ensures { items_left result ≡ named_nodes (entries_in self.entry) }
    {
        Items {
            group: self,
            from: self.number as usize + 1,
        }
    }
}
