//! Laws of trees, over their definitions alone. There is nothing to do when they run.

ghost use Rattle.std.specs.List.{Contains, flat_map};
ghost use Rattle.std.specs.Prelude.{◌≡◌, ◌≢◌, ◌+◌, ◌-◌, ◌*◌, ◌<◌, ◌≤◌, ◌⊎◌, ◌↔◌, [], ◌∷◌, ℕ, List, None, length, map};
ghost use Rattle.tree_build.specs.Changing.{IsPutBy};
ghost use Rattle.tree_build.specs.Cuts.{IsCut};
ghost use Rattle.tree_build.specs.Rebuilding.{changed_entries, changes_of, keys_of_changes};
ghost use Rattle.tree_build.specs.declared.change.EntryChange.{EntryChange};
ghost use Rattle.tree_node.specs.Digests.{digest};
ghost use Rattle.tree_node.specs.Nodes.{AreRisingFrom, Binding, IsNode, IsTree, Leaf, Link, keys_of, level_of, tree_of};
ghost use Rattle.tree_node.specs.Outcomes.{Clash};
ghost use Rattle.tree_node.specs.Trees.{HasTree, IsNodeOf, Shape};
ghost use Rattle.tree_node.specs.Trees.{entries_at, entries_below, entries_in, entry_count, greatest_of};
ghost use Rattle.tree_node.specs.Trees.{is_marked_entry, is_marked_link, item_count, last_key};
ghost use Rattle.tree_node.specs.Trees.{level_at, levels, link_to, links_in, node_in, top_of};

/// The law of what a tree is of: the list can be read off its leaves, and off each of its levels.
pub fn entries_law()
    // The entries of the leaves, one after the other, are the list.
    ensures leaves { (shape : Shape) (tree : ℕ) (entries : List Binding)
        → flat_map entries_in (level_at (levels shape tree entries) 0) ≡ entries }
    // At each level so are the entries below its nodes.
    ensures below { (shape : Shape) (tree : ℕ) (entries : List Binding) (level : ℕ)
        → level < length (levels shape tree entries)
        → flat_map (λ part. part) (entries_at (levels shape tree entries) level) ≡ entries }
{}

/// The law of how levels stand over one another: a tree is shallow.
pub fn levels_law()
    // The items of a level's nodes stand for the nodes of the level below it, one each, in order.
    ensures linked { (shape : Shape) (tree : ℕ) (entries : List Binding) (level : ℕ)
        → level + 1 < length (levels shape tree entries)
        → flat_map links_in (level_at (levels shape tree entries) (level + 1))
        ≡ map link_to (level_at (levels shape tree entries) level) }
    // A level above the leaves has at most half as many nodes as the one below it, rounded up,
    ensures half { (shape : Shape) (tree : ℕ) (entries : List Binding) (level : ℕ)
        → level + 1 < length (levels shape tree entries)
        → 2 * length (level_at (levels shape tree entries) (level + 1))
        ≤ length (level_at (levels shape tree entries) level) + 1 }
    // so it has fewer,
    ensures fewer { (shape : Shape) (tree : ℕ) (entries : List Binding) (level : ℕ)
        → level + 1 < length (levels shape tree entries)
        → length (level_at (levels shape tree entries) (level + 1))
        < length (level_at (levels shape tree entries) level) }
    // until the last level has one, the top.
    ensures top { (shape : Shape) (tree : ℕ) (entries : List Binding)
        → length (level_at (levels shape tree entries) (length (levels shape tree entries) - 1))
        ≡ 1 }
    // There are at most 30 levels.
    ensures few { (shape : Shape) (tree : ℕ) (entries : List Binding)
        → HasTree entries → length (levels shape tree entries) ≤ 30 }
{}

/// The law of the pieces that lists are cut into: how many items a node has.
pub fn pieces_law()
    // The tree of the empty list is one leaf without entries.
    ensures empty { (shape : Shape) (tree : ℕ) → levels shape tree [] ≡ (Leaf tree [] ∷ []) ∷ [] }
    // Where there are entries, each node has an item or more,
    ensures some { (shape : Shape) (tree : ℕ) (entries : List Binding) (level place : ℕ)
        → entries ≢ [] → level < length (levels shape tree entries)
        → place < length (level_at (levels shape tree entries) level)
        → 1 ≤ item_count (node_in (levels shape tree entries) level place) }
    // and none has more than 64.
    ensures most { (shape : Shape) (tree : ℕ) (entries : List Binding) (level place : ℕ)
        → level < length (levels shape tree entries)
        → place < length (level_at (levels shape tree entries) level)
        → item_count (node_in (levels shape tree entries) level place) ≤ 64 }
{}

/// The law of where lists are cut, told of the pieces as they stand. Each piece but the last ends at its
/// 64th item, or in the second shape at a marked item that isn't its first; none goes on after one; and
/// a list is cut in one way alone.
pub fn cuts_law()
    // The entries are cut into the leaves,
    ensures leaves { (shape : Shape) (tree : ℕ) (entries : List Binding) → entries ≢ []
        → IsCut shape is_marked_entry entries
        (map entries_in (level_at (levels shape tree entries) 0)) }
    // and the items that stand for the nodes of a level are cut into the nodes of the next one.
    ensures above { (shape : Shape) (tree : ℕ) (entries : List Binding) (level : ℕ)
        → level + 1 < length (levels shape tree entries)
        → IsCut shape is_marked_link (map link_to (level_at (levels shape tree entries) level))
        (map links_in (level_at (levels shape tree entries) (level + 1))) }
    // A list of entries is cut in one way,
    ensures one_way { (shape : Shape) (entries : List Binding) (pieces others : List (List Binding))
        → IsCut shape is_marked_entry entries pieces → IsCut shape is_marked_entry entries others
        → pieces ≡ others }
    // and so is a list of the items of inner nodes.
    ensures one_way_above { (shape : Shape) (links : List Link) (pieces others : List (List Link))
        → IsCut shape is_marked_link links pieces → IsCut shape is_marked_link links others
        → pieces ≡ others }
{}

/// The law of a tree's nodes: what a reader of one of them may rely on.
pub fn nodes_law()
    // Each node of a tree has the form of a node, so its bytes read back as it and as nothing else.
    ensures nodes { (shape : Shape) (tree : ℕ) (entries : List Binding) (level place : ℕ)
        → IsTree tree → HasTree entries → level < length (levels shape tree entries)
        → place < length (level_at (levels shape tree entries) level)
        → IsNode (node_in (levels shape tree entries) level place) }
    // It bears the number of its level,
    ensures level { (shape : Shape) (tree : ℕ) (entries : List Binding) (level place : ℕ)
        → level < length (levels shape tree entries)
        → place < length (level_at (levels shape tree entries) level)
        → level_of (node_in (levels shape tree entries) level place) ≡ level }
    // and of its tree.
    ensures tree { (shape : Shape) (tree : ℕ) (entries : List Binding) (level place : ℕ)
        → level < length (levels shape tree entries)
        → place < length (level_at (levels shape tree entries) level)
        → tree_of (node_in (levels shape tree entries) level place) ≡ tree }
    // What it counts is how many entries are below it,
    ensures count { (shape : Shape) (tree : ℕ) (entries : List Binding) (level place : ℕ)
        → level < length (levels shape tree entries)
        → place < length (level_at (levels shape tree entries) level)
        → entry_count (node_in (levels shape tree entries) level place)
        ≡ length (entries_below (levels shape tree entries) level place) }
    // and its greatest key is the last of theirs.
    ensures greatest { (shape : Shape) (tree : ℕ) (entries : List Binding) (level place : ℕ)
        → HasTree entries → level < length (levels shape tree entries)
        → place < length (level_at (levels shape tree entries) level)
        → greatest_of (node_in (levels shape tree entries) level place)
        ≡ last_key (keys_of (entries_below (levels shape tree entries) level place)) }
    // The items of a level state how many entries are below the nodes that they stand for.
    ensures stated { (shape : Shape) (tree : ℕ) (entries : List Binding) (level : ℕ)
        → level + 1 < length (levels shape tree entries)
        → map (λ (link : Link). link.number)
        (flat_map links_in (level_at (levels shape tree entries) (level + 1)))
        ≡ map (λ (part : List Binding). length part)
        (entries_at (levels shape tree entries) level) }
{}

/// The law of tops: the digest of a top stands for one list alone. Two lists whose trees have one
/// number, one shape and one digest of their tops are the same list, or else two different nodes, one
/// of each tree, have one digest.
pub fn determines_law()
    ensures { (shape : Shape) (tree : ℕ) (entries others : List Binding)
        → IsTree tree → HasTree entries → HasTree others
        → digest (top_of (levels shape tree entries)) ≡ digest (top_of (levels shape tree others))
        → (entries ≡ others)
        ⊎ Clash (IsNodeOf (levels shape tree entries)) (IsNodeOf (levels shape tree others)) }
{}

/// The law of changed lists: what the entries of a list are after changes whose keys rise.
pub fn changed_list_law()
    // An entry is there afterwards where a change puts it, or where it was there and no change names its key,
    // and nowhere else.
    ensures members { (entries : List Binding) (changes : List EntryChange)
        → AreRisingFrom None (keys_of entries)
        → AreRisingFrom None (keys_of_changes (changes_of changes))
        → (entry : Binding) → Contains (changed_entries entries (changes_of changes)) entry
        ↔ (IsPutBy (changes_of changes) entry
        ⊎ (Contains entries entry × ¬ Contains (keys_of_changes (changes_of changes)) entry.key)) }
    // The keys strictly rise.
    ensures rising { (entries : List Binding) (changes : List EntryChange)
        → AreRisingFrom None (keys_of entries)
        → AreRisingFrom None (keys_of_changes (changes_of changes))
        → AreRisingFrom None (keys_of (changed_entries entries (changes_of changes))) }
{}
