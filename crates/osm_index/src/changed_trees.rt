//! Changing the four trees of a set of objects.

ghost use Rattle.std.specs.Prelude.{◌≡◌, ◌++◌, ◌∷◌, [], ℕ, List, IfErr, IfOk, OnOk};
ghost use Rattle.osm_model.specs.Elements.{Element};
ghost use Rattle.tree_build.specs.StrangeShelves.{HasNoTwin, cause_of};
ghost use Rattle.tree_node.specs.Outcomes.{RefusedFor};
ghost use Rattle.tree_node.specs.Shelves.{IsClashFree, Stays};
ghost use Rattle.osm_index.specs.Applying.{edition_after};
ghost use Rattle.osm_keys.specs.Publications.{IsPublicationOf, Publication};
ghost use Rattle.osm_index.specs.internal.ChangedTrees.{AreChangedTrees, AreChangesOf, AreHeldTrees};
ghost use Rattle.osm_index.specs.internal.Putting.{IsTreeNode};

use crate::tree_changes::TreeChanges;
use std::alloc::{AllocError, Global};
use tree_build::{RebuildFault, Rebuilt, rebuild};
use tree_node::{Digest, NewNode, Shelf};

/// What changing the four trees gives.
#[derive(Drop)]
pub(crate) struct ChangedTrees {
    /// The digests of the tops, in the order of the trees' numbers.
    pub(crate) tops: [Digest; 4],
    /// The nodes that only the new trees have, each once.
    pub(crate) added: Vec<NewNode>,
    /// The digests of the nodes that only the old trees have, each once.
    pub(crate) gone: Vec<Digest>,
}

/// Changes the four trees under these tops.
pub(crate) fn change_trees<'a, S: Shelf<'a>>(
    alloc: Global,
    shelf: &mut S,
    tops: &[Digest; 4],
    changes: &'a TreeChanges,
) -> Result<ChangedTrees, RebuildFault>
    ensures stays { Stays S.is_fixed (S.holds shelf.old) (S.holds shelf.new) }
    ensures grows { (bytes : List ℕ) → S.used shelf.old bytes → S.used shelf.new bytes }
    ensures changed { (p : Publication) (removed puts set : List Element)
        → AreHeldTrees p removed puts set tops.now (HasNoTwin (S.used shelf.new))
        → IsClashFree (IsTreeNode p) → AreChangesOf p set changes.now
        → IfOk result (λ trees. (q : Publication) × IsPublicationOf set (edition_after p.edition) q
        × AreChangedTrees p q trees) }
    ensures told { (p : Publication) (removed puts set : List Element)
        → AreHeldTrees p removed puts set tops.now (HasNoTwin (S.used shelf.new))
        → AreChangesOf p set changes.now
        → IfErr result (λ fault. RefusedFor (IsTreeNode p) (S.holds shelf.new) (cause_of fault)) }
{
    let objects = rebuild(alloc, shelf, &tops[0], &changes.objects)?;
    let tags = rebuild(alloc, shelf, &tops[1], &changes.tags)?;
    let cells = rebuild(alloc, shelf, &tops[2], &changes.cells)?;
    let backs = rebuild(alloc, shelf, &tops[3], &changes.backs)?;
    Ok(all_of(objects, tags, cells, backs)?)
}

/// The four trees together.
fn all_of(
    objects: Rebuilt,
    tags: Rebuilt,
    cells: Rebuilt,
    backs: Rebuilt,
) -> Result<ChangedTrees, AllocError>
    ensures tops { IfOk result
        (λ trees. trees.tops ≡ objects.top ∷ tags.top ∷ cells.top ∷ backs.top ∷ []) }
    ensures added { IfOk result (λ trees.
        trees.added.items ≡ ((objects.added.items ++ tags.added.items) ++ cells.added.items)
        ++ backs.added.items) }
    ensures gone { IfOk result (λ trees.
        trees.gone.items ≡ ((objects.gone.items ++ tags.gone.items) ++ cells.gone.items)
        ++ backs.gone.items) }
{
    let tops = [objects.top, tags.top, cells.top, backs.top];
    let mut added = objects.added;
    let mut gone = objects.gone;
    append(tags.added, tags.gone, &mut added, &mut gone)?;
    append(cells.added, cells.gone, &mut added, &mut gone)?;
    append(backs.added, backs.gone, &mut added, &mut gone)?;
    Ok(ChangedTrees { tops, added, gone })
}

/// Appends the nodes that come and go with a tree to those of others.
fn append(
    nodes: Vec<NewNode>,
    digests: Vec<Digest>,
    added: &mut Vec<NewNode>,
    gone: &mut Vec<Digest>,
) -> Result<(), AllocError>
    ensures added { OnOk result (added.new.items ≡ added.old.items ++ nodes.items) }
    ensures gone { OnOk result (gone.new.items ≡ gone.old.items ++ digests.items) }
{
    let mut nodes = nodes;
    added.append(&mut nodes)?;
    gone.extend_from_slice(&digests)
}
