//! Which children of a node a hint leads to.

ghost use Rattle.std.specs.Option.{option_copied};
ghost use Rattle.std.specs.Prelude.{◌≡◌, ◌↔◌, ◌++◌, ℕ, suc, Err, IsTrue, List, OnOk, map};
ghost use Rattle.tree_node.specs.Nodes.{Inner, Link, Spells};
ghost use Rattle.tree_walk.specs.Ranges.{Begins, IsAtMost};
ghost use Rattle.node_pack.specs.Hints.{GoesOnAboveFor, GoesOnFor, IsLed};
ghost use Rattle.node_pack.specs.Packs.{node_in};
ghost use Rattle.node_pack.specs.internal.Announcing.{announcements};
ghost use Rattle.node_pack.specs.internal.Stepping.{AddsLed, below_step, is_first, lead_to_top, leads_of};

use crate::hint::Hint;
use crate::record::split_record;
use crate::step::Step;
use std::alloc::AllocError;
use tree_node::{Children, NodeRef, is_below};

/// The tops of the trees that the hints speak of.
pub(crate) fn add_tops<'h>(hints: &'h [Hint], steps: &mut Vec<Step<'h>>) -> Result<(), AllocError>
    ensures { OnOk result (leads_of steps.new.items
        ≡ leads_of steps.old.items ++ map lead_to_top (announcements hints.now)) }
{
    for hint in hints {
        steps.push(Step {
            key: hint.top,
            lo: hint.lo.as_slice(),
            hi: hint.hi.as_slice(),
            is_leaf: false,
        })?;
    }
    Ok(())
}

/// Adds the children of a record's node that a hint leads to, if it is an inner node.
pub(crate) fn add_below<'h>(
    bytes: &[u8],
    step: &Step<'h>,
    steps: &mut Vec<Step<'h>>,
) -> Result<(), AllocError>
    ensures inner { (tree level : ℕ) (links : List Link)
        → Spells (node_in bytes.now) (Inner tree level links)
        → OnOk result
        (AddsLed (below_step step.now) (is_first level) links steps.old.items steps.new.items) }
    ensures other { ((tree level : ℕ) (links : List Link)
        → ¬ Spells (node_in bytes.now) (Inner tree level links))
        → steps.new ≡ steps.old }
{
    let (node, _) = split_record(bytes);
    match NodeRef::read(node) {
        Ok(
            NodeRef::Inner {
                tree: _,
                level,
                children,
            },
        ) => add_children(children, step, level == 1, steps),
        Ok(
            NodeRef::Leaf {
                tree: _,
                entries: _,
            },
        ) => Ok(()),
        Err(_) => Ok(()),
    }
}

/// Adds those of these children that the hint leads to.
fn add_children<'h>(
    children: Children<'_>,
    step: &Step<'h>,
    are_leaves: bool,
    steps: &mut Vec<Step<'h>>,
) -> Result<(), AllocError>
    ensures { OnOk result
        (AddsLed (below_step step.now) are_leaves children.entry steps.old.items steps.new.items) }
{
    let mut left = None;
    for child in children {
        if leads(step.lo, step.hi, left, child.greatest) {
            steps.push(Step {
                key: child.digest,
                lo: step.lo,
                hi: step.hi,
                is_leaf: are_leaves,
            })?;
        }
        left = Some(child.greatest);
    }
    Ok(())
}

/// Whether a hint leads to a child with this left bound and this greatest key.
fn leads(lo: &[u8], hi: &[u8], left: Option<&[u8]>, greatest: &[u8]) -> bool
    ensures { IsTrue result ↔ IsLed lo.now hi.now (option_copied left.entry) greatest.now }
{
    is_at_most(lo, greatest) && goes_on(hi, left)
}

/// Whether keys that were announced up to `hi` may stand above this left bound; without a bound they may.
fn goes_on(hi: &[u8], left: Option<&[u8]>) -> bool
    ensures { IsTrue result ↔ GoesOnFor hi.now (option_copied left.entry) }
{
    match left {
        Some(bound) => goes_on_above(hi, bound),
        None => true,
    }
}

/// Whether keys that were announced up to `hi` may stand above this bound.
fn goes_on_above(hi: &[u8], bound: &[u8]) -> bool
    ensures { IsTrue result ↔ GoesOnAboveFor hi.now bound.now }
{
    is_below(bound, hi) || (begins(hi, bound) && hi.len() < bound.len())
}

/// Whether the low key is below the high one, or is the same.
fn is_at_most(low: &[u8], high: &[u8]) -> bool
    ensures { IsTrue result ↔ IsAtMost low.now high.now }
{
    !is_below(high, low)
}

/// Whether the whole is the front and some bytes after it.
fn begins(front: &[u8], whole: &[u8]) -> bool
    ensures { IsTrue result ↔ Begins front.now whole.now }
{
    whole.starts_with(front)
}
