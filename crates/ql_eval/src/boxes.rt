//! The nodes in a box, asked of a shelf under a manifest.

ghost use Rattle.std.specs.Prelude.{ℕ, IfErr, IfOk, List, OnOk};
ghost use Rattle.tree_node.specs.NodeRefs.{binding_of, bindings_of};
ghost use Rattle.tree_node.specs.Outcomes.{Outcome};
ghost use Rattle.tree_node.specs.Shelves.{Stays};
ghost use Rattle.tree_node.specs.declared.tree.Tree.TheVariants.{Cells};
ghost use Rattle.tree_walk.specs.WalksGiven.{HasGiven};
ghost use Rattle.osm_keys.specs.Grains.{grain_of};
ghost use Rattle.osm_keys.specs.Manifests.{top_among};
ghost use Rattle.osm_keys.specs.Publications.{IsPublication, Publication};
ghost use Rattle.ref_sets.specs.Sets.{IsSetOf};
ghost use Rattle.ql_meaning.specs.Values.{IsRefOf};
ghost use Rattle.ref_sets.specs.Adding.{Adds};
ghost use Rattle.ql_eval.specs.Absences.{IsSound};
ghost use Rattle.ql_eval.specs.Asks.{IsAskedInBox};
ghost use Rattle.ql_eval.specs.internal.Objects.{NeverAbsent};
ghost use Rattle.ql_eval.specs.Faults.{cause_of_evaluation};
ghost use Rattle.ql_eval.specs.Openings.{IsUnder};
ghost use Rattle.ql_eval.specs.TrueFaults.{IsNamedIn};
ghost use Rattle.ql_eval.specs.internal.Giving.{AllGiven};
ghost use Rattle.ql_eval.specs.internal.TrueFaults.{IsTrueUnder};
ghost use Rattle.ql_eval.specs.Questions.{NeededBy};
ghost use Rattle.ql_eval.specs.internal.Affording.{IsSizeOf};
ghost use Rattle.ql_eval.specs.internal.Boxes.{IsCellsAsk, IsFoundIn, IsInBox, IsInRange};
ghost use Rattle.ql_eval.specs.Forms.{HasForm, HaveForm, Names};
ghost use Rattle.ql_eval.specs.internal.Entries.{AreMisread, IsMisread, IsSaid, Places, PlacesIn, SaysIn};
ghost use Rattle.ql_eval.specs.Work.{IsInCellsOf};
ghost use Rattle.tree_walk.specs.Uses.{nodes_around};

use crate::announcing::announce_cells;
use crate::cell_entry::read_cell_entry;
use crate::fault::EvalFault;
use crate::walks::entries_in;
use osm_keys::{Manifest, OwnedRange, cell_ranges};
use osm_model::{BoxArea, Ref};
use ref_sets::RefSet;
use std::alloc::Global;
use tree_node::{Item, Shelf, Tree};
use tree_walk::Tally;

/// What the cells have that a box meets.
#[derive(Drop)]
pub(crate) struct InBox {
    /// The nodes in the box.
    pub(crate) nodes: RefSet,
    /// How many nodes were read, in the box and beside it.
    pub(crate) read: usize,
}

/// The nodes in a box, as a set, and how many nodes the cells have that it meets. Where the box goes round the earth to the
/// cells that it begins in, their nodes come twice; each counts once. Refused as memory is where more than `most` come.
pub(crate) fn find_in_box<'a, S: Shelf<'a>>(
    alloc: Global,
    shelf: &mut S,
    manifest: &Manifest,
    area: &BoxArea<'_>,
    most: usize,
    tally: &mut Tally,
) -> Result<InBox, EvalFault>
    ensures stays { Stays S.is_fixed (S.holds shelf.old) (S.holds shelf.new) }
    ensures grows { (bytes : List ℕ) → S.used shelf.old bytes → S.used shelf.new bytes }
    ensures walked { OnOk result (HasGiven (top_among manifest.now.tops) (IsSound NeverAbsent)
        (nodes_around S.holds S.used shelf.old shelf.new)
        tally.old.calls tally.new.calls tally.old.fetches tally.new.fetches) }
    ensures told { IfErr result (IsTrueUnder (S.holds shelf.new) (S.used shelf.new) manifest.now) }
    ensures named { IfOk result
        (λ found. AllGiven (IsNamedIn (S.used shelf.new) manifest.now) found.nodes) }
    ensures answer { (p : Publication) → IsPublication p → IsUnder p manifest.now
        → Outcome cause_of_evaluation
        (λ found. IsSetOf found.nodes (IsRefOf p.objects (IsInBox area.now)))
        (NeededBy p (IsAskedInBox p area.now))
        (nodes_around S.holds S.used shelf.old shelf.new) result }
    ensures read { (p : Publication) → IsPublication p → IsUnder p manifest.now
        → Outcome cause_of_evaluation
        (λ found. IsSizeOf
        (IsRefOf p.objects (IsInCellsOf (grain_of p.edition) area.now)) found.read)
        (NeededBy p (IsAskedInBox p area.now))
        (nodes_around S.holds S.used shelf.old shelf.new) result }
{
    let ranges = cell_ranges(alloc, area)?;
    announce_cells(shelf, manifest, &ranges);
    let mut names = Vec::new(alloc);
    let mut cells = Vec::new(alloc);
    for keys in &ranges {
        add_range(
            alloc, shelf, manifest, area, keys, most, tally, &mut names, &mut cells,
        )?;
    }
    let cells = RefSet::from_refs(cells);
    let read = cells.as_slice().len();
    Ok(InBox {
        nodes: RefSet::from_refs(names),
        read,
    })
}

/// Adds the nodes in a box that a range of cells has, and all nodes that it has. Refused as memory is where these are more
/// than `most` then.
fn add_range<'a, S: Shelf<'a>>(
    alloc: Global,
    shelf: &mut S,
    manifest: &Manifest,
    area: &BoxArea<'_>,
    keys: &OwnedRange,
    most: usize,
    tally: &mut Tally,
    names: &mut Vec<Ref>,
    cells: &mut Vec<Ref>,
) -> Result<(), EvalFault>
    requires { AllGiven (IsNamedIn (S.used shelf.old) manifest.now) names.old.items }
    ensures stays { Stays S.is_fixed (S.holds shelf.old) (S.holds shelf.new) }
    ensures grows { (bytes : List ℕ) → S.used shelf.old bytes → S.used shelf.new bytes }
    ensures walked { OnOk result (HasGiven (top_among manifest.now.tops) (IsSound NeverAbsent)
        (nodes_around S.holds S.used shelf.old shelf.new)
        tally.old.calls tally.new.calls tally.old.fetches tally.new.fetches) }
    ensures told { IfErr result (IsTrueUnder (S.holds shelf.new) (S.used shelf.new) manifest.now) }
    ensures named { OnOk result
        (AllGiven (IsNamedIn (S.used shelf.new) manifest.now) names.new.items) }
    ensures answer { (p : Publication) → IsPublication p → IsUnder p manifest.now
        → Outcome cause_of_evaluation
        (λ _. Adds names.old.items names.new.items (IsFoundIn p.objects area.now keys.now))
        (NeededBy p (IsCellsAsk keys.now))
        (nodes_around S.holds S.used shelf.old shelf.new) result }
    ensures read { (p : Publication) → IsPublication p → IsUnder p manifest.now
        → Outcome cause_of_evaluation
        (λ _. Adds cells.old.items cells.new.items (IsInRange p.objects keys.now))
        (NeededBy p (IsCellsAsk keys.now))
        (nodes_around S.holds S.used shelf.old shelf.new) result }
{
    let found = entries_in(
        alloc,
        shelf,
        manifest,
        Tree::Cells,
        &keys.as_range(),
        most.saturating_sub(cells.len()),
        tally,
    )?;
    add_nodes(area, &found, names, cells)
}

/// Adds the nodes that entries of the cell tree place in a box, and all that they place, with room made for all at once.
/// `Form` where an entry isn't of its form.
fn add_nodes(
    area: &BoxArea<'_>,
    found: &[Item<'_>],
    names: &mut Vec<Ref>,
    cells: &mut Vec<Ref>,
) -> Result<(), EvalFault>
    ensures added { OnOk result
        (Adds names.old.items names.new.items (IsSaid (SaysIn area.now) (bindings_of found.now))) }
    ensures read { OnOk result
        (Adds cells.old.items cells.new.items (IsSaid (Names Cells) (bindings_of found.now))) }
    ensures formed { OnOk result (HaveForm Cells (bindings_of found.now)) }
    ensures refused { IfErr result (AreMisread Cells (bindings_of found.now)) }
{
    names.reserve(found.len())?;
    cells.reserve(found.len())?;
    for item in found {
        add_node(area, item, names, cells)?;
    }
    Ok(())
}

/// Adds the node that an entry places, where that is in the box, and to all.
fn add_node(
    area: &BoxArea<'_>,
    item: &Item<'_>,
    names: &mut Vec<Ref>,
    cells: &mut Vec<Ref>,
) -> Result<(), EvalFault>
    ensures added { OnOk result
        (Adds names.old.items names.new.items (PlacesIn area.now (binding_of item.now))) }
    ensures read { OnOk result
        (Adds cells.old.items cells.new.items (Places (binding_of item.now))) }
    ensures formed { OnOk result (HasForm Cells (binding_of item.now)) }
    ensures refused { IfErr result (IsMisread Cells (binding_of item.now)) }
{
    match read_cell_entry(item) {
        Some(node) => {
            cells.push(node.name)?;
            if area.holds(node.place) {
                names.push(node.name)?;
            }
            Ok(())
        }
        None => Err(EvalFault::Form),
    }
}
