//! A configuration that was read.

use crate::node::Group;
use crate::table::Table;
use std::marker::Model;

/// A configuration: a group of named texts and groups, in the order in which they were added. No two names in a group are
/// the same. Contracts see the group. A caller walks it from `root` on.
#[derive(Drop)]
pub struct Conf {
    /// The text and the nodes in it.
    table: Table,
}

impl Model for Conf {
    ghost use Rattle.asound_conf.specs.Tree.{Entries};
    ghost use Rattle.asound_conf.specs.TreeCode.{entries_code};

    ghost Value = { Entries };

    ghost coded = { entries_code };

    ghost use Rattle.asound_conf.specs.Rows.{group_of};

    ghost view = { λ conf. group_of 0 conf.table.rows };
}

impl Conf {
    ghost use Rattle.std.specs.Prelude.{◌≡◌};
    ghost use Rattle.asound_conf.specs.Node.{entries_in};
    ghost use Rattle.asound_conf.specs.Rows.{group_of};

    /// The configuration that a table is.
    pub(crate) fn of(table: Table) -> Conf
        ensures { result ≡ group_of 0 table.rows }
    {
        Conf { table }
    }

    /// The configuration's own group, which has the nodes of the text's first level.
    pub fn root(&self) -> Group<'_>
        ensures { entries_in result ≡ self.now }
    {
        Group {
            table: &self.table,
            number: 0,
        }
    }
}
