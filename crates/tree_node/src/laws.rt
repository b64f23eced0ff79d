//! Laws of what holds nodes, over their definitions alone, and of the limits. There is nothing to do when they run.

ghost use Rattle.std.specs.Prelude.{◌≡◌, ◌^◌, List, map};
ghost use Rattle.tree_node.specs.Parts.{HaveNode, HaveRisingDigests, node_of};
ghost use Rattle.tree_node.specs.Shelves.{IsClashFree, SameNodes};
ghost use Rattle.tree_node.specs.Stocks.{HasNode};
ghost use Rattle.tree_node.specs.declared.limits.TheConstants.{ENTRY_LIMIT, ITEM_LIMIT, KEY_LIMIT, LEVEL_LIMIT, NUMBER_LIMIT, VALUE_LIMIT};
ghost use Rattle.tree_node.specs.declared.part.Part.{Part};
ghost use Rattle.tree_node.specs.declared.stock.Stock.{Stock};

/// The law of stocks: no two nodes of a stock have one digest.
pub fn stock_law()
    ensures { (stock : Stock) → IsClashFree (HasNode stock) }
{}

/// The law of the order of parts: a set of nodes has one order by rising digests. Two lists of parts
/// whose digests rise, and which hold the same nodes, hold them in the same order.
pub fn one_order_law()
    ensures { (parts others : List Part) → HaveRisingDigests parts → HaveRisingDigests others
        → SameNodes (HaveNode parts) (HaveNode others) → map node_of parts ≡ map node_of others }
{}

/// The law of the limits that the definitions name, as numbers.
pub fn limits_law()
    ensures items { ITEM_LIMIT ≡ 64 }
    ensures levels { LEVEL_LIMIT ≡ 63 }
    ensures numbers { NUMBER_LIMIT ≡ 2 ^ 40 }
    ensures keys { KEY_LIMIT ≡ 8203 }
    ensures values { VALUE_LIMIT ≡ 2 ^ 24 }
    ensures entries { ENTRY_LIMIT ≡ 2 ^ 29 }
{}
