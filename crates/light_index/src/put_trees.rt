//! Putting the four trees into a stock.

ghost use Rattle.tree_node.specs.Shelves.{IsEmptySet};
ghost use Rattle.tree_node.specs.Stocks.{HasNode};
ghost use Rattle.osm_index.specs.internal.Putting.{AreAllFour};
ghost use Rattle.osm_model.specs.Sets.{IsObjectSet};
ghost use Rattle.light_index.specs.LightLines.{AreLinesOf};
ghost use Rattle.light_index.specs.internal.LightPutting.{EndsTree, EndsTrees};

use crate::light_listing::light_entries_of;
use osm_index::IndexFault;
use osm_model::ObjectSet;
use std::alloc::Global;
use tree_build::{BuildFault, Shape, build};
use tree_node::{Digest, ENTRY_LIMIT, NewNode, Stock, Tree};

/// Puts the nodes of the four trees into a stock without nodes, and gives the digests of their tops; none where two
/// nodes clash. All trees are counted before a clash is told.
pub(crate) fn put_trees(
    alloc: Global,
    set: &ObjectSet,
    lines: &[NewNode],
    stock: &mut Stock,
) -> Result<Option<[Digest; 4]>, IndexFault>
    requires set { IsObjectSet set.now }
    requires lines { AreLinesOf set.now lines.now }
    requires empty { IsEmptySet (HasNode stock.old) }
    ensures { EndsTrees set.now (HasNode stock.new) result }
{
    let objects = put_tree(alloc, set, lines, Tree::Objects, stock)?;
    let tags = put_tree(alloc, set, lines, Tree::Tags, stock)?;
    let cells = put_tree(alloc, set, lines, Tree::Cells, stock)?;
    let backs = put_tree(alloc, set, lines, Tree::Backs, stock)?;
    Ok(all_four(objects, tags, cells, backs))
}

/// All four, where all are there.
fn all_four(
    objects: Option<Digest>,
    tags: Option<Digest>,
    cells: Option<Digest>,
    backs: Option<Digest>,
) -> Option<[Digest; 4]>
    ensures { AreAllFour objects tags cells backs result }
{
    Some([objects?, tags?, cells?, backs?])
}

/// Puts the nodes of a tree of these objects into the stock, and gives the digest of its top; none where two nodes
/// clash.
fn put_tree(
    alloc: Global,
    set: &ObjectSet,
    lines: &[NewNode],
    tree: Tree,
    stock: &mut Stock,
) -> Result<Option<Digest>, IndexFault>
    requires set { IsObjectSet set.now }
    requires lines { AreLinesOf set.now lines.now }
    ensures { EndsTree set.now tree (HasNode stock.old) (HasNode stock.new) result }
{
    let list = light_entries_of(alloc, set, lines, tree)?;
    let entries = list.sorted(alloc)?;
    if entries.len() > ENTRY_LIMIT {
        return Err(IndexFault::TooMany);
    }
    match build(alloc, &entries, tree, Shape::Two, stock) {
        Ok(top) => Ok(Some(top)),
        Err(BuildFault::Clash) => Ok(None),
        Err(BuildFault::Memory) => Err(IndexFault::Memory),
    }
}
