//! The order of the records of a pack.

use crate::role::Role;
use tree_node::{LEVEL_LIMIT, Tree};

/// Where the record of a node stands, before or after those of other nodes: the manifest, the nodes of level 2 and above tree by
/// tree from the top down, those of level 1 tree by tree, and the leaves tree by tree.
#[derive(Clone, Copy, Debug, PartialEq, Eq, PartialOrd, Ord)]
pub enum Row {
    Manifest,
    Upper { tree: Tree, below_limit: u8 },
    Lower { tree: Tree },
    Leaves { tree: Tree },
}

impl Row {
    /// The row of a node of this role.
    pub(crate) fn of(role: Role) -> Row {
        match role {
            Role::Manifest => Row::Manifest,
            Role::Node { tree, level: 0 } => Row::Leaves { tree },
            Role::Node { tree, level: 1 } => Row::Lower { tree },
            Role::Node { tree, level } => Row::Upper {
                tree,
                below_limit: LEVEL_LIMIT.saturating_sub(level),
            },
        }
    }
}
