//! The nodes in a group, one after the other.
ghost use Rattle.std.specs.Prelude.{◌≡◌, IfNone, IfSome};
ghost use Rattle.asound_conf.specs.Rows.{entries_from, IsNextNode};
ghost use Rattle.asound_conf.specs.Tree.{empty};

use crate::cell::ConfText;
use crate::node::{Group, Node, node_of};
use crate::table::Table;

/// The nodes in a group that are still to come, with their names, in the order in which they were added (`Group::items`).
///
/// To go through a group takes time that goes with the number of all nodes that were read after it.
#[derive(Clone, Copy)]
pub struct Items<'a> {
    /// The group.
    pub(crate) group: Group<'a>,
    /// The number from which on a node of the group comes next.
    pub(crate) from: usize,
}

/// The first node in a group whose number isn't below this one.
fn next_in(table: &Table, group: u32, from: usize) -> Option<u32>
    ensures some { IfSome result (λ n. IsNextNode table.now.rows group from n) }
    ensures none { IfNone result (entries_from group from table.now.rows ≡ empty) }
{
    for number in from..table.len() as usize {
        if table.is_node_of(number as u32, group) {
            return Some(number as u32);
        }
    }
    None
}

impl<'a> Iterator for Items<'a> {
    ghost use Rattle.std.specs.Iterator.{YieldsFirstBy, item_count};
    ghost use Rattle.asound_conf.specs.Items.{item_of, items_left};

    type Item = (ConfText<'a>, Node<'a>);

    ghost next_gives = { YieldsFirstBy item_of items_left };

    ghost remaining = { item_count items_left };

    fn next(&mut self) -> Option<(ConfText<'a>, Node<'a>)> {
        let Group { table, number } = self.group;
        match next_in(table, number, self.from) {
            Some(found) => {
                self.from = found as usize + 1;
                Some((table.name_of(found), node_of(table, found)))
            }
            None => None,
        }
    }
}
