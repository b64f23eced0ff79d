//! Fetching one node.

ghost use Rattle.std.specs.Prelude.{◌≡◌, ◌≤◌, ℕ, List, IfErr, IfOk, true};
ghost use Rattle.tree_node.specs.Digests.{digest};
ghost use Rattle.tree_node.specs.NodeRefs.{node_read, number_of};
ghost use Rattle.tree_node.specs.Nodes.{IsNode, Inner, Leaf, Node, spelling, tree_of};
ghost use Rattle.tree_node.specs.Shelves.{HasNone, Stays};
ghost use Rattle.tree_walk.specs.Fetches.{cause_of};
ghost use Rattle.tree_node.specs.Outcomes.{Outcome};
ghost use Rattle.tree_walk.specs.internal.Pendings.{IsStated, Opens, spot_of};
ghost use Rattle.tree_walk.specs.Given.{wanted_of};
ghost use Rattle.tree_walk.specs.Reasons.{Agrees, IsAccepted, IsReason, Top};
ghost use Rattle.tree_walk.specs.Uses.{nodes_around};

use crate::fault::WalkFault;
use crate::pending::Pending;
use crate::tally::Tally;
use tree_node::{Children, Digest, Entries, NodeRef, Shelf, Tree};

/// Fetches a node of the tree.
pub(crate) fn open<'a, S: Shelf<'a>>(
    shelf: &mut S,
    key: &Digest,
    tree: Tree,
    tally: &mut Tally,
) -> Result<NodeRef<'a>, WalkFault>
    ensures calls { tally.new.calls ≡ tally.old.calls }
    ensures stays { Stays S.is_fixed (S.holds shelf.old) (S.holds shelf.new) }
    ensures grows { (bytes : List ℕ) → S.used shelf.old bytes → S.used shelf.new bytes }
    ensures opens { Opens node_read result
        (nodes_around S.holds S.used shelf.old shelf.new) tally.old.fetches tally.new.fetches }
    ensures tree { IfOk result (λ node. tree_of (node_read node) ≡ number_of tree) }
    ensures accepted { IfOk result (λ node. IsAccepted (S.used shelf.new) (number_of tree)
        (Top key.now.0) (node_read node)) }
    ensures told { IfErr result
        (IsReason (number_of tree) (S.holds shelf.new) (S.used shelf.new) (Top key.now.0)) }
    ensures none { S.is_fixed ≡ true → HasNone (S.holds shelf.new) key.now.0
        → result ≡ Err WalkFault.Missing }
    ensures memory { result ≡ Err WalkFault.Memory → S.takes_memory ≡ true }
    ensures answer { (node : Node) → IsNode node → tree_of node ≡ number_of tree
        → key.now.0 ≡ digest (spelling node)
        → Outcome cause_of (λ found. node_read found ≡ node) (λ bytes. bytes ≡ spelling node)
        (nodes_around S.holds S.used shelf.old shelf.new) result }
{
    let read = shelf.fetch_node(key)?.read;
    tally.count_fetch();
    match read {
        Ok(node) if node.tree() == tree => Ok(node),
        Ok(_) => Err(WalkFault::WrongTreeOrLevel),
        Err(fault) => Err(WalkFault::Malformed(fault)),
    }
}

/// Fetches a child that has to be an inner node of this level, and as its parent states.
pub(crate) fn open_inner<'a, S: Shelf<'a>>(
    shelf: &mut S,
    pending: &Pending<'a>,
    tree: Tree,
    level: u8,
    tally: &mut Tally,
) -> Result<Children<'a>, WalkFault>
    requires { 1 ≤ level }
    ensures calls { tally.new.calls ≡ tally.old.calls }
    ensures stays { Stays S.is_fixed (S.holds shelf.old) (S.holds shelf.new) }
    ensures grows { (bytes : List ℕ) → S.used shelf.old bytes → S.used shelf.new bytes }
    ensures opens { Opens (Inner (number_of tree) level) result
        (nodes_around S.holds S.used shelf.old shelf.new) tally.old.fetches tally.new.fetches }
    ensures agrees { IfOk result
        (λ children. Agrees (spot_of pending.now) (Inner (number_of tree) level children)) }
    ensures accepted { IfOk result (λ children. IsAccepted (S.used shelf.new) (number_of tree)
        (wanted_of level (spot_of pending.now)) (Inner (number_of tree) level children)) }
    ensures told { IfErr result (IsReason (number_of tree) (S.holds shelf.new) (S.used shelf.new)
        (wanted_of level (spot_of pending.now))) }
    ensures memory { result ≡ Err WalkFault.Memory → S.takes_memory ≡ true }
    ensures answer { (node : Node) → IsStated (number_of tree) level (spot_of pending.now) node
        → Outcome cause_of (λ children. Inner (number_of tree) level children ≡ node)
        (λ bytes. bytes ≡ spelling node)
        (nodes_around S.holds S.used shelf.old shelf.new) result }
{
    match open(shelf, &pending.child.digest, tree, tally)? {
        NodeRef::Inner {
            tree: _,
            level: own,
            children,
        } => {
            if own != level {
                return Err(WalkFault::WrongTreeOrLevel);
            }
            if !pending.is_inner(&children) {
                return Err(WalkFault::Disagrees);
            }
            Ok(children)
        }
        NodeRef::Leaf { .. } => Err(WalkFault::WrongTreeOrLevel),
    }
}

/// Fetches a child that has to be a leaf, and as its parent states.
pub(crate) fn open_leaf<'a, S: Shelf<'a>>(
    shelf: &mut S,
    pending: &Pending<'a>,
    tree: Tree,
    tally: &mut Tally,
) -> Result<Entries<'a>, WalkFault>
    ensures calls { tally.new.calls ≡ tally.old.calls }
    ensures stays { Stays S.is_fixed (S.holds shelf.old) (S.holds shelf.new) }
    ensures grows { (bytes : List ℕ) → S.used shelf.old bytes → S.used shelf.new bytes }
    ensures opens { Opens (Leaf (number_of tree)) result
        (nodes_around S.holds S.used shelf.old shelf.new) tally.old.fetches tally.new.fetches }
    ensures agrees { IfOk result
        (λ entries. Agrees (spot_of pending.now) (Leaf (number_of tree) entries)) }
    ensures accepted { IfOk result (λ entries. IsAccepted (S.used shelf.new) (number_of tree)
        (wanted_of 0 (spot_of pending.now)) (Leaf (number_of tree) entries)) }
    ensures told { IfErr result (IsReason (number_of tree) (S.holds shelf.new) (S.used shelf.new)
        (wanted_of 0 (spot_of pending.now))) }
    ensures memory { result ≡ Err WalkFault.Memory → S.takes_memory ≡ true }
    ensures answer { (node : Node) → IsStated (number_of tree) 0 (spot_of pending.now) node
        → Outcome cause_of (λ entries. Leaf (number_of tree) entries ≡ node)
        (λ bytes. bytes ≡ spelling node)
        (nodes_around S.holds S.used shelf.old shelf.new) result }
{
    match open(shelf, &pending.child.digest, tree, tally)? {
        NodeRef::Leaf { tree: _, entries } => {
            if !pending.is_leaf(&entries) {
                return Err(WalkFault::Disagrees);
            }
            Ok(entries)
        }
        NodeRef::Inner { .. } => Err(WalkFault::WrongTreeOrLevel),
    }
}
