//! Laws of ranges, over their definitions alone. There is nothing to do when they run.

ghost use Rattle.std.specs.List.{AllByRecursion, Contains};
ghost use Rattle.std.specs.Prelude.{◌≡◌, ◌<◌, ◌↔◌, None, false, true, ℕ, suc, List, Option, length, map, slice_index_or};
ghost use Rattle.tree_node.specs.Nodes.{AreBytes, AreRisingFrom, Binding, Link, Node, keys_of};
ghost use Rattle.tree_node.specs.Trees.{HasTree, Shape, greatest_of, left_at, level_at, levels, link_to, no_node};
ghost use Rattle.tree_walk.specs.Choices.{AreThose};
ghost use Rattle.tree_walk.specs.Given.{IsEntered, IsNever};
ghost use Rattle.tree_walk.specs.Spans.{children_of_all, children_placed, placed, HasChildrenWithin};
ghost use Rattle.tree_walk.specs.Ranges.{Begins, IsAboveLeft, IsAtMost, IsCovered, IsIn, IsNoHigher, Meets, Range};
ghost use Rattle.tree_walk.specs.Walks.{IsEntryIn};

/// The law of empty ranges: a range that contains any key contains its `lo`. So a range that doesn't contain its `lo` is
/// empty.
pub fn empty_law()
    ensures { (range : Range) (key : List ℕ) → IsIn range key → IsIn range range.lo }
{}

/// The law of one key: the range from a key to itself contains that key and no other.
pub fn point_law()
    ensures { (key other : List ℕ)
        → IsIn (record { lo = key; hi = key; under = false }) other ↔ (other ≡ key) }
{}

/// The law of prefixes: the range from a key to itself with `under` contains exactly the keys that have that key as a
/// prefix, itself included.
pub fn prefix_law()
    ensures { (front key : List ℕ)
        → IsIn (record { lo = front; hi = front; under = true }) key ↔ Begins front key }
{}

/// The law of what a walk finds: it is known from the list and the range.
pub fn found_law()
    // An entry is found exactly where it is one of the list and its key is in the range.
    ensures among { (range : Range) (entries found : List Binding)
        → AreThose (IsEntryIn range) entries found → (entry : Binding)
        → Contains found entry ↔ (Contains entries entry × IsEntryIn range entry) }
    // The keys that are found rise as those of the list do.
    ensures rising { (range : Range) (entries found : List Binding)
        → AreThose (IsEntryIn range) entries found
        → AreRisingFrom None (keys_of entries) → AreRisingFrom None (keys_of found) }
    // Nothing else is found.
    ensures unique { (range : Range) (entries found others : List Binding)
        → AreThose (IsEntryIn range) entries found → AreThose (IsEntryIn range) entries others
        → found ≡ others }
{}

/// The law of the left edge: a node without a left bound meets a range that contains its `lo` exactly
/// where the node's greatest key isn't below `lo`.
pub fn left_edge_law()
    ensures { (range : Range) (greatest : List ℕ) → AreBytes range.lo → IsIn range range.lo
        → (Meets range None greatest ↔ IsAtMost range.lo greatest) }
{}

/// The law of covered nodes: where a node is one that a count leaves closed, each key that can be
/// below it, above its left bound and not above its greatest key, is in the range. So the number
/// of entries below it is the number of those in the range.
pub fn covered_law()
    ensures { (range : Range) (left : Option (List ℕ)) (greatest key : List ℕ)
        → IsCovered range left greatest → IsAboveLeft left key → IsAtMost key greatest
        → IsIn range key }
{}

/// The law of what is inside: where a node is one that a count leaves closed, so is each whose left bound
/// isn't lower and whose greatest key isn't higher. A child's bounds are such, so whatever is below a
/// node that a count leaves closed isn't needed either.
pub fn inside_law()
    ensures { (range : Range) (left outer : Option (List ℕ)) (greatest last : List ℕ)
        → IsCovered range outer last → IsNoHigher outer left → IsAboveLeft left greatest
        → IsAtMost greatest last → IsCovered range left greatest }
{}

/// The law of wider nodes: where a node meets a range, so does each whose left bound isn't higher and
/// whose greatest key isn't lower. A parent's bounds are such, so whatever stands above a node that
/// meets the range meets it too.
pub fn wider_law()
    ensures { (range : Range) (left outer : Option (List ℕ)) (greatest last : List ℕ)
        → Meets range left greatest → IsNoHigher outer left → IsAtMost greatest last
        → Meets range outer last }
{}

/// The law of entered children: where any key that can be below a child is in the range, a walk that gives
/// entries enters the child. So nothing in the range is below a child that it passes by.
pub fn entered_law()
    ensures { (range : Range) (child : Option (List ℕ) × Link) (key : List ℕ)
        → IsAboveLeft child.0 key → IsAtMost key child.1.greatest → IsIn range key
        → IsEntered IsNever range child }
{}

/// The law of spans: a node's left bound is taken from its whole level, and the range is asked of each
/// node alone. It says that this is as a walk has it, which knows of a node what its parent states.
pub fn spans_law()
    // The nodes of a level, each beside its left bound.
    ensures bounds { (nodes : List Node) (place : ℕ) → place < length nodes
        → slice_index_or (placed greatest_of None nodes) place (None, no_node)
        ≡ (left_at nodes place, slice_index_or nodes place no_node) }
    // The nodes of a level are the children of the nodes above them, in order. A first child has its
    // parent's left bound, each other the greatest key that its parent states of the child before it.
    ensures children { (shape : Shape) (tree : ℕ) (entries : List Binding) (level : ℕ)
        → suc level < length (levels shape tree entries)
        → children_of_all
        (placed greatest_of None (level_at (levels shape tree entries) (suc level)))
        ≡ children_placed None (map link_to (level_at (levels shape tree entries) level)) }
    // A child meets a range only where its parent does, and where a range covers a node it covers the
    // node's children, and so all below it.
    ensures within { (range : Range) (shape : Shape) (tree : ℕ) (entries : List Binding) (level : ℕ)
        → HasTree entries → suc level < length (levels shape tree entries)
        → AllByRecursion (HasChildrenWithin range)
        (placed greatest_of None (level_at (levels shape tree entries) (suc level))) }
{}
