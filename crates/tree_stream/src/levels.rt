//! The levels over the leaves, by their places: a level's place is the level of its items' nodes.

ghost use Rattle.std.specs.Prelude.{◌≡◌, ◌≢◌, ◌++◌, ◌∷◌, ◌+◌, ◌-◌, ◌≤◌, ◌<◌, [], ℕ, List, IfOk, OnOk, length};
ghost use Rattle.tree_node.specs.NodeRefs.{link_of, number_of};
ghost use Rattle.tree_node.specs.Nodes.{Inner, Link};
ghost use Rattle.tree_node.specs.declared.limits.TheConstants.{ITEM_LIMIT};
ghost use Rattle.tree_stream.specs.internal.Holding.{HoldsAt};
ghost use Rattle.tree_stream.specs.internal.Writing.{IsPut, States};
ghost use Rattle.tree_build.specs.internal.Building.{AreWithin};

use crate::fault::WriterFault;
use crate::level::OpenLevel;
use crate::node_sum::NodeSum;
use crate::writer::NodeWriter;
use std::alloc::Global;
use tree_node::{Child, Tree};

/// Copies an item to the end of those of the level at this place, which is made where this is its first. Gives the number
/// of the level's items.
pub(crate) fn push_at(
    alloc: Global,
    levels: &mut Vec<OpenLevel>,
    at: usize,
    child: &Child<'_>,
) -> Result<usize, WriterFault>
    requires { at ≤ length levels.old.items }
    ensures number { (links : List Link) → HoldsAt levels.old.items at links
        → IfOk result (λ number. number ≡ length links + 1) }
    ensures here { (links : List Link) → HoldsAt levels.old.items at links
        → OnOk result (HoldsAt levels.new.items at (links ++ link_of child.now ∷ [])) }
    ensures others { OnOk result ((place : ℕ) (links : List Link) → place ≢ at
        → HoldsAt levels.old.items place links → HoldsAt levels.new.items place links) }
    ensures len { OnOk result
        (length levels.new.items ≡ length levels.old.items + (at + 1 - length levels.old.items)) }
{
    if at == levels.len() {
        levels.push(OpenLevel::new(alloc))?;
    }
    push_in(levels, at, child)
}

/// Copies an item to the end of those of the level at this place, which is there.
fn push_in(levels: &mut Vec<OpenLevel>, at: usize, child: &Child<'_>) -> Result<usize, WriterFault>
    requires { at < length levels.old.items }
    ensures number { (links : List Link) → HoldsAt levels.old.items at links
        → IfOk result (λ number. number ≡ length links + 1) }
    ensures here { (links : List Link) → HoldsAt levels.old.items at links
        → OnOk result (HoldsAt levels.new.items at (links ++ link_of child.now ∷ [])) }
    ensures others { OnOk result ((place : ℕ) (links : List Link) → place ≢ at
        → HoldsAt levels.old.items place links → HoldsAt levels.new.items place links) }
    ensures len { OnOk result (length levels.new.items ≡ length levels.old.items) }
{
    let level = &mut levels[at];
    level.push(child)?;
    Ok(level.len())
}

/// Writes the node of the items of the level at this place, and leaves none there.
pub(crate) fn write_at<W: NodeWriter>(
    alloc: Global,
    tree: Tree,
    levels: &mut Vec<OpenLevel>,
    at: usize,
    writer: &mut W,
) -> Result<NodeSum, WriterFault>
    requires there { (at < length levels.old.items) × (at < 63) }
    requires held { (links : List Link) × HoldsAt levels.old.items at links
        × (length links ≤ ITEM_LIMIT) × AreWithin links }
    ensures states { (links : List Link) → HoldsAt levels.old.items at links
        → IfOk result (States (Inner (number_of tree) (at + 1) links)) }
    ensures put { (links : List Link) → HoldsAt levels.old.items at links
        → OnOk result (IsPut (W.given writer.old) (W.given writer.new) (at + 1)
        (Inner (number_of tree) (at + 1) links)) }
    ensures left { OnOk result (HoldsAt levels.new.items at []) }
    ensures others { OnOk result ((place : ℕ) (links : List Link) → place ≢ at
        → HoldsAt levels.old.items place links → HoldsAt levels.new.items place links) }
    ensures len { OnOk result (length levels.new.items ≡ length levels.old.items) }
{
    let level = &mut levels[at];
    level.write(alloc, tree, at as u8 + 1, writer)
}
