//! How many nodes the cells have that a box meets, counted without reading them.

ghost use Rattle.std.specs.Prelude.{◌≡◌, ◌≤◌, ◌⊎◌, ◌↔◌, ℕ, IfErr, IsTrue, List, OnOk};
ghost use Rattle.std.specs.List.{Contains};
ghost use Rattle.std.specs.Option.{option_copied};
ghost use Rattle.tree_node.specs.Order.{IsBelow};
ghost use Rattle.tree_node.specs.Shelves.{Stays};
ghost use Rattle.tree_node.specs.declared.tree.Tree.TheVariants.{Cells};
ghost use Rattle.tree_walk.specs.Choices.{IsCount};
ghost use Rattle.tree_walk.specs.Ranges.{IsIn, Range, range_of};
ghost use Rattle.tree_walk.specs.Uses.{nodes_around};
ghost use Rattle.tree_walk.specs.Walks.{IsEntryIn};
ghost use Rattle.tree_walk.specs.WalksGiven.{HasGiven};
ghost use Rattle.osm_keys.specs.Grains.{grain_of};
ghost use Rattle.osm_keys.specs.Manifests.{top_among};
ghost use Rattle.osm_keys.specs.Publications.{IsPublication, Publication};
ghost use Rattle.ql_meaning.specs.Values.{IsRefOf};
ghost use Rattle.ql_eval.specs.Absences.{IsSound};
ghost use Rattle.ql_eval.specs.Asks.{IsAskedInBox};
ghost use Rattle.ql_eval.specs.Faults.{cause_of_evaluation};
ghost use Rattle.ql_eval.specs.Openings.{IsUnder};
ghost use Rattle.ql_eval.specs.Questions.{NeededBy};
ghost use Rattle.ql_eval.specs.Work.{IsInCellsOf};
ghost use Rattle.ql_eval.specs.internal.Affording.{AreCounted, IsUpTo, IsWithinSet, Within};
ghost use Rattle.ql_eval.specs.internal.Objects.{NeverAbsent};
ghost use Rattle.ql_eval.specs.internal.TrueFaults.{IsTrueUnder};

use crate::fault::EvalFault;
use crate::walks::count_in;
use osm_keys::{Manifest, cell_ranges};
use osm_model::BoxArea;
use std::alloc::Global;
use tree_node::{Shelf, Tree};
use tree_walk::{KeyRange, Tally};

/// Entries of ranges that rise one above the other, so that each entry is counted once.
#[derive(Clone, Copy)]
pub(crate) struct Chain<'r> {
    /// The high end of the last range.
    pub(crate) end: Option<&'r [u8]>,
    /// How many entries there are. It stays at the greatest u64.
    pub(crate) number: u64,
}

/// The entries of a box's ranges. Where the box crosses the 180th meridian each row has two of them, which may have a cell in
/// common. So what lies east of the one edge and what lies west of the other are counted apart.
#[derive(Clone, Copy)]
pub(crate) struct Chains<'r> {
    pub(crate) first: Chain<'r>,
    pub(crate) second: Chain<'r>,
}

/// The number of nodes in the cells that a box meets. Of a box that crosses the 180th meridian, that of the side that has
/// more of them. Only the nodes of the tree at the ends of the ranges are read.
pub(crate) fn count_in_box<'a, S: Shelf<'a>>(
    alloc: Global,
    shelf: &mut S,
    manifest: &Manifest,
    area: &BoxArea<'_>,
    tally: &mut Tally,
) -> Result<u64, EvalFault>
    ensures stays { Stays S.is_fixed (S.holds shelf.old) (S.holds shelf.new) }
    ensures grows { (bytes : List ℕ) → S.used shelf.old bytes → S.used shelf.new bytes }
    ensures walked { OnOk result (HasGiven (top_among manifest.now.tops) (IsSound NeverAbsent)
        (nodes_around S.holds S.used shelf.old shelf.new)
        tally.old.calls tally.new.calls tally.old.fetches tally.new.fetches) }
    ensures told { IfErr result (IsTrueUnder (S.holds shelf.new) (S.used shelf.new) manifest.now) }
    ensures answer { (p : Publication) → IsPublication p → IsUnder p manifest.now
        → Within cause_of_evaluation
        (IsWithinSet (IsRefOf p.objects (IsInCellsOf (grain_of p.edition) area.now)))
        (NeededBy p (IsAskedInBox p area.now))
        (nodes_around S.holds S.used shelf.old shelf.new) result }
{
    let ranges = cell_ranges(alloc, area)?;
    let nothing = Chain {
        end: None,
        number: 0,
    };
    let mut chains = Chains {
        first: nothing,
        second: nothing,
    };
    for keys in &ranges {
        let range = keys.as_range();
        let number = count_in(alloc, shelf, manifest, Tree::Cells, &range, tally)?;
        chains = with_range(chains, range, number);
    }
    Ok(greater(chains.first.number, chains.second.number))
}

/// With the entries of one more range, where it begins after one of the two.
fn with_range<'r>(chains: Chains<'r>, keys: KeyRange<'r>, number: u64) -> Chains<'r>
    ensures { (p : Publication) (ranges : List Range) → IsPublication p
        → Contains ranges (range_of keys.entry) → IsIn (range_of keys.entry) keys.entry.lo.now
        → IsCount (IsEntryIn (range_of keys.entry)) (p.entries Cells) number
        → AreCounted p ranges chains.entry → AreCounted p ranges result }
{
    let Chains { first, second } = chains;
    if is_after(first.end, keys.lo) {
        let first = Chain {
            end: Some(keys.hi),
            number: first.number.saturating_add(number),
        };
        return Chains { first, second };
    }
    if is_after(second.end, keys.lo) {
        let second = Chain {
            end: Some(keys.hi),
            number: second.number.saturating_add(number),
        };
        return Chains { first, second };
    }
    chains
}

/// Whether a key is above the end of a range, and above all keys that the end begins.
fn is_after(end: Option<&[u8]>, key: &[u8]) -> bool
    ensures { IsTrue result
        ↔ ((low : List ℕ) → IsUpTo (option_copied end.entry) low → IsBelow low key.now) }
{
    match end {
        Some(hi) => {
            let until = KeyRange {
                lo: key,
                hi,
                under: true,
            };
            !until.contains(key)
        }
        None => true,
    }
}

/// The greater of two numbers.
fn greater(first: u64, second: u64) -> u64
    ensures one { (result ≡ first) ⊎ (result ≡ second) }
    ensures most { (first ≤ result) × (second ≤ result) }
{
    if first < second { second } else { first }
}
