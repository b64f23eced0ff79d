//! The order of the levels in a pack.

ghost use Rattle.std.specs.Prelude.{◌≡◌, ◌-◌, ◌++◌, IfOk, OnOk, min};
ghost use Rattle.pack_assembly.specs.Levels.{height_among};
ghost use Rattle.pack_assembly.specs.internal.Order.{down, in_trees, rows_of};

use std::alloc::{AllocError, AllocFailed, Global};
use tree_node::Tree;

/// A level of a tree. Its nodes have their records one after the other.
#[derive(Clone, Copy, Debug, PartialEq, Eq)]
pub(crate) struct Row {
    pub(crate) tree: Tree,
    pub(crate) level: u8,
}

/// The levels of trees of these heights, in the order of their records: of each tree those from the second up, the top first;
/// then of each tree the one just over the leaves; then the leaves.
pub(crate) fn rows_of_heights(alloc: Global, heights: &[u8; 4]) -> Result<Vec<Row>, AllocError>
    ensures { IfOk result (λ rows. rows.items ≡ rows_of (height_among heights.now)) }
{
    let mut rows = Vec::new(alloc);
    push_levels(heights, 2, u8::MAX, &mut rows)?;
    push_levels(heights, 1, 2, &mut rows)?;
    push_levels(heights, 0, 1, &mut rows)?;
    Ok(rows)
}

/// Adds the levels from one up to below another, tree by tree.
fn push_levels(heights: &[u8; 4], low: u8, high: u8, rows: &mut Vec<Row>) -> Result<(), AllocError>
    ensures { OnOk result
        (rows.new.items ≡ rows.old.items ++ in_trees (height_among heights.now) low high) }
{
    push_down(Tree::Objects, low, heights[0].min(high), rows)?;
    push_down(Tree::Tags, low, heights[1].min(high), rows)?;
    push_down(Tree::Cells, low, heights[2].min(high), rows)?;
    push_down(Tree::Backs, low, heights[3].min(high), rows)
}

/// Adds the levels of a tree from one up to below another, the uppermost first.
fn push_down(tree: Tree, low: u8, high: u8, rows: &mut Vec<Row>) -> Result<(), AllocError>
    ensures { OnOk result (rows.new.items ≡ rows.old.items ++ down tree low (high - low)) }
{
    let count = high.saturating_sub(low);
    for done in 0..count {
        let level = low + (count - done - 1);
        rows.push(Row { tree, level })?;
    }
    Ok(())
}
