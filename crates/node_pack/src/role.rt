//! What nodes are in a publication.

ghost use Rattle.std.specs.Prelude.{◌≡◌, ◌↔◌, IsTrue};
ghost use Rattle.node_pack.specs.Reached.{Fits};
ghost use Rattle.node_pack.specs.internal.Gathering.{nth_tree, wanted_below};

use tree_node::Tree;

/// What a node is.
#[derive(Clone, Copy, Debug, PartialEq, Eq)]
pub enum Role {
    /// A manifest.
    Manifest,
    /// A node of a tree, at a level.
    Node { tree: Tree, level: u8 },
}

/// What a node has to be, by what refers to it.
#[derive(Clone, Copy, Debug, PartialEq, Eq)]
pub enum Wanted {
    /// A manifest.
    Root,
    /// A node of a tree, at any level.
    Top { tree: Tree },
    /// A node of a tree at a level.
    Below { tree: Tree, level: u8 },
}

impl Role {
    /// Whether a node of this role is as wanted.
    pub(crate) fn fits(self, wanted: Wanted) -> bool
        ensures { IsTrue result ↔ Fits self wanted }
    {
        match (self, wanted) {
            (Role::Manifest, Wanted::Root) => true,
            (Role::Node { tree, level: _ }, Wanted::Top { tree: other }) => tree == other,
            (
                Role::Node { tree, level },
                Wanted::Below {
                    tree: other,
                    level: same,
                },
            ) => { tree == other && level == same }
            _ => false,
        }
    }

    /// What the child at a place among a node's children has to be.
    pub(crate) fn child(self, at: usize) -> Wanted
        ensures { result ≡ wanted_below self at }
    {
        match self {
            Role::Manifest => Wanted::Top { tree: tree_at(at) },
            Role::Node { tree, level } => Wanted::Below {
                tree,
                level: level.saturating_sub(1),
            },
        }
    }
}

/// The tree whose top a manifest names at this place.
fn tree_at(at: usize) -> Tree
    ensures { result ≡ nth_tree at }
{
    match at {
        0 => Tree::Objects,
        1 => Tree::Tags,
        2 => Tree::Cells,
        _ => Tree::Backs,
    }
}
