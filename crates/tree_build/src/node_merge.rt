//! The old and the new nodes of a level, merged in the order of their greatest keys.

ghost use Rattle.std.specs.List.{AllByRecursion};
ghost use Rattle.std.specs.Prelude.{◌≤◌, List, drop, length, take};
ghost use Rattle.tree_build.specs.internal.Differing.{FirstReaches, IsCounterpart, IsMergeStep};
ghost use Rattle.tree_build.specs.internal.Edits.{Each, IsNewNode, IsOldNode};
ghost use Rattle.tree_node.specs.Nodes.{IsNode, Node};
ghost use Rattle.tree_node.specs.Order.{IsBelow};

use crate::old_node::OldNode;
use crate::piece::NewPiece;
use tree_node::is_below;

/// What a new node says of the old nodes up to its greatest key.
#[derive(Clone, Copy)]
pub(crate) struct MergeStep<'o, 'c> {
    /// The old nodes with greatest keys below its own.
    pub(crate) below: &'o [OldNode<'c>],
    /// The old nodes that are gone: these, and the one that it replaces.
    pub(crate) gone: &'o [OldNode<'c>],
    /// Whether it isn't an old node itself.
    pub(crate) is_new: bool,
    /// How many old nodes have greatest keys up to its own.
    pub(crate) up_to: usize,
}

/// The old node that has the greatest key of a new one.
#[derive(Clone, Copy)]
pub(crate) enum Counterpart {
    /// There is none.
    Missing,
    /// It has other bytes.
    Changed,
    /// It is the same node.
    Same,
}

/// Goes over the old nodes up to the greatest key of the new one.
pub(crate) fn merge_step<'o, 'c>(olds: &'o [OldNode<'c>], new: &NewPiece<'_>) -> MergeStep<'o, 'c>
    ensures within { result.up_to ≤ length olds.now }
    ensures goes_on { (nodes : List Node) (node : Node) → Each IsOldNode olds.now nodes
        → IsNewNode new.now node → AllByRecursion IsNode nodes → IsNode node
        → IsMergeStep olds.now nodes node result }
{
    let at = count_below(olds, new.greatest);
    let below = &olds[..at];
    match counterpart_of(&olds[at..], new) {
        Counterpart::Missing => MergeStep {
            below,
            gone: below,
            is_new: true,
            up_to: at,
        },
        Counterpart::Changed => MergeStep {
            below,
            gone: &olds[..at + 1],
            is_new: true,
            up_to: at + 1,
        },
        Counterpart::Same => MergeStep {
            below,
            gone: below,
            is_new: false,
            up_to: at + 1,
        },
    }
}

/// How many of the old nodes have greatest keys below this one; they stand in front.
fn count_below(olds: &[OldNode<'_>], key: &[u8]) -> usize
    ensures within { result ≤ length olds.now }
    ensures below { AllByRecursion (λ old. IsBelow old.greatest.now key.now)
        (take result olds.now) }
    ensures first { FirstReaches key.now (drop result olds.now) }
{
    let mut count = 0;
    for old in olds {
        if !is_below(old.greatest, key) {
            return count;
        }
        count += 1;
    }
    count
}

/// Which of these old nodes, none of which has a greatest key below that of the new one, has its key: the
/// first or none.
fn counterpart_of(olds: &[OldNode<'_>], new: &NewPiece<'_>) -> Counterpart
    requires { FirstReaches new.now.greatest.now olds.now }
    ensures { IsCounterpart olds.now new.now result }
{
    match olds.first() {
        None => Counterpart::Missing,
        Some(old) => {
            if is_below(new.greatest, old.greatest) {
                Counterpart::Missing
            } else if old.bytes == new.node.bytes.as_slice() {
                Counterpart::Same
            } else {
                Counterpart::Changed
            }
        }
    }
}
