//! Levels above those of the old tree.

ghost use Rattle.std.specs.Prelude.{◌≡◌, ◌+◌, ◌≤◌, ◌++◌, ℕ, List, IfErr, IfOk, OnOk, length, map};
ghost use Rattle.tree_build.specs.Rebuilding.{nodes_of};
ghost use Rattle.tree_build.specs.declared.rebuild_fault.RebuildFault.TheVariants.{Memory};
ghost use Rattle.tree_build.specs.internal.Building.{AreWithin};
ghost use Rattle.tree_build.specs.internal.Edits.{Each, IsNewNode};
ghost use Rattle.tree_build.specs.internal.Growing.{HasGrown};
ghost use Rattle.tree_build.specs.internal.Towers.{tower};
ghost use Rattle.tree_node.specs.NodeRefs.{links_of, number_of};
ghost use Rattle.tree_node.specs.Nodes.{Binding, Inner, Node, spelling};
ghost use Rattle.tree_node.specs.Trees.{HasTree, Two, ends_by, is_marked_link, link_to, pieces};

use crate::fits::are_within;
use crate::open_piece::{close, cut};
use crate::piece::NewPiece;
use crate::rebuild_fault::RebuildFault;
use std::alloc::{AllocError, Global};
use tree_node::{Child, Digest, LEVEL_LIMIT, NewNode, Tree};

/// Makes the levels over these nodes, of which the first has the number after this one, until one node is
/// left. It appends the new nodes to those that were added, and gives the digest of the top.
pub(crate) fn grow_top<'c>(
    alloc: Global,
    tree: Tree,
    before: u8,
    nodes: &[NewPiece<'c>],
    added: &mut Vec<NewNode>,
) -> Result<Digest, RebuildFault>
    ensures grown { (entries : List Binding) → HasTree entries → 1 ≤ length nodes.now
        → Each IsNewNode nodes.now (tower Two (number_of tree) entries before)
        → IfOk result (λ top. HasGrown (tower Two (number_of tree) entries) before
        (nodes_of added.old.items) (nodes_of added.new.items) top.0) }
    // Over the nodes of a tree memory alone refuses it.
    ensures served { (entries : List Binding) → HasTree entries → 1 ≤ length nodes.now
        → Each IsNewNode nodes.now (tower Two (number_of tree) entries before)
        → IfErr result (λ fault. fault ≡ Memory) }
{
    let mut children = children_of(alloc, nodes)?;
    let mut level = before;
    'growing: while children.len() > 1 {
        if level >= LEVEL_LIMIT || !are_within(&[], children.as_slice()) {
            return Err(RebuildFault::NoTree);
        }
        level += 1;
        let news = level_over(alloc, tree, level, children.as_slice())?;
        if news.len() >= children.len() {
            return Err(RebuildFault::NoTree);
        }
        children = children_of(alloc, news.as_slice())?;
        add_all(news, added)?;
    }
    match children.first() {
        Some(top) => Ok(top.digest),
        None => Err(RebuildFault::NoTree),
    }
}

/// What an inner node says of each of these nodes.
fn children_of<'c>(alloc: Global, nodes: &[NewPiece<'c>]) -> Result<Vec<Child<'c>>, AllocError>
    ensures { (known : List Node) → Each IsNewNode nodes.now known
        → IfOk result (λ children. links_of children.items ≡ map link_to known) }
{
    let mut children = Vec::with_capacity(alloc, nodes.len())?;
    for node in nodes {
        children.push(node.child())?;
    }
    Ok(children)
}

/// The nodes of this level over the children.
fn level_over<'c>(
    alloc: Global,
    tree: Tree,
    level: u8,
    children: &[Child<'c>],
) -> Result<Vec<NewPiece<'c>>, AllocError>
    requires { AreWithin (links_of children.now) }
    ensures { IfOk result (λ news. Each IsNewNode news.items
        (map (Inner (number_of tree) level)
        (pieces (ends_by Two is_marked_link) (links_of children.now)))) }
{
    let mut news = Vec::new(alloc);
    let mut pending = Vec::new(alloc);
    cut(alloc, tree, level, children, &mut pending, &mut news)?;
    close(alloc, tree, level, &mut pending, &mut news)?;
    Ok(news)
}

/// Appends these nodes to those that were added.
fn add_all(news: Vec<NewPiece<'_>>, added: &mut Vec<NewNode>) -> Result<(), AllocError>
    ensures { (known : List Node) → Each IsNewNode news.entry.items known
        → OnOk result (nodes_of added.new.items ≡ nodes_of added.old.items ++ map spelling known) }
{
    for new in news {
        added.push(new.node)?;
    }
    Ok(())
}
