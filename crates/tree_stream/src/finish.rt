//! Closing the levels of a tree.

ghost use Rattle.std.specs.Prelude.{◌≡◌, ◌+◌, ◌≤◌, ◌<◌, ℕ, List, IfOk, OnOk, length, map};
ghost use Rattle.tree_build.specs.Shapes.{shape_of};
ghost use Rattle.tree_node.specs.NodeRefs.{number_of};
ghost use Rattle.tree_node.specs.Nodes.{Binding, Node, spelling};
ghost use Rattle.tree_node.specs.Trees.{Shape as TreeShape, level_over};
ghost use Rattle.tree_stream.specs.internal.Opening.{AreOpen, CanClose};
ghost use Rattle.tree_stream.specs.internal.Finishing.{IsFinished, IsTopOver, IsWhole};

use crate::add::add;
use crate::fault::WriterFault;
use crate::level::OpenLevel;
use crate::levels::write_at;
use crate::writer::NodeWriter;
use std::alloc::Global;
use tree_build::Shape;
use tree_node::{Child, Digest, Tree};

/// The top of a tree.
#[derive(Clone, Copy)]
pub(crate) struct Top {
    /// The digest of the top.
    pub(crate) digest: Digest,
    /// Its level, 0 where it is a leaf.
    pub(crate) level: u8,
}

/// Writes what is pending at the levels over the leaves, all of which were written, up to the top.
pub(crate) fn finish_levels<W: NodeWriter>(
    alloc: Global,
    tree: Tree,
    shape: Shape,
    levels: &mut Vec<OpenLevel>,
    last: &[u8],
    writer: &mut W,
) -> Result<Top, WriterFault>
    requires { (entries : List Binding) × IsWhole (shape_of shape) (number_of tree) entries 0
        last.now levels.old.items (W.given writer.old) }
    ensures low { IfOk result (λ top. top.level ≤ 30) }
    ensures finished { (entries : List Binding) → IsWhole (shape_of shape) (number_of tree) entries 0
        last.now levels.old.items (W.given writer.old)
        → IfOk result (IsFinished (shape_of shape) (number_of tree) entries (W.given writer.new)) }
{
    let mut at = 0;
    loop {
        if let Some(digest) = top_over(levels.as_slice(), at) {
            return Ok(Top {
                digest,
                level: at as u8,
            });
        }
        close(alloc, tree, shape, levels, at, last, writer)?;
        at += 1;
    }
}

/// The digest of the only node of level `at`, all of whose nodes were written; none where there are more.
fn top_over(levels: &[OpenLevel], at: usize) -> Option<Digest>
    requires { at < length levels.now }
    ensures { (shape : TreeShape) (tree : ℕ) (nodes : List Node) (given : ℕ → List (List ℕ))
        → AreOpen shape tree at nodes levels.now given → IsTopOver result nodes }
{
    if at + 1 == levels.len() {
        levels[at].only()
    } else {
        None
    }
}

/// Writes the node of what is pending over level `at`, all of whose nodes were written, if anything is.
fn close<W: NodeWriter>(
    alloc: Global,
    tree: Tree,
    shape: Shape,
    levels: &mut Vec<OpenLevel>,
    at: usize,
    last: &[u8],
    writer: &mut W,
) -> Result<(), WriterFault>
    requires { (nodes : List Node) × CanClose (shape_of shape) (number_of tree) at nodes
        last.now levels.old.items (W.given writer.old) }
    ensures closed { (nodes : List Node) → CanClose (shape_of shape) (number_of tree) at nodes
        last.now levels.old.items (W.given writer.old)
        → OnOk result (AreOpen (shape_of shape) (number_of tree) (at + 1)
        (level_over (shape_of shape) (number_of tree) (at + 1) nodes) levels.new.items (W.given writer.new)) }
    ensures written { (nodes : List Node) → CanClose (shape_of shape) (number_of tree) at nodes
        last.now levels.old.items (W.given writer.old)
        → OnOk result (W.given writer.new (at + 1)
        ≡ map spelling (level_over (shape_of shape) (number_of tree) (at + 1) nodes)) }
    ensures below { OnOk result ((level : ℕ) → level ≤ at
        → W.given writer.new level ≡ W.given writer.old level) }
{
    if levels[at].len() == 0 {
        return Ok(());
    }
    let sum = write_at(alloc, tree, levels, at, writer)?;
    let child = Child {
        greatest: last,
        number: sum.number,
        digest: sum.digest,
    };
    add(alloc, tree, shape, levels, at + 1, &child, writer)
}
