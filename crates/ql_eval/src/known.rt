//! The objects that were looked up, each once in a query.

ghost use Rattle.std.specs.Prelude.{◌≡◌, ℕ, IfErr, IfOk, IfSome, List, None, OnOk, Option, Some};
ghost use Rattle.std.specs.BTreeMap.{get};
ghost use Rattle.osm_model.specs.Elements.{Element, ref_cmp};
ghost use Rattle.osm_model.specs.Sets.{object_at};
ghost use Rattle.tree_node.specs.NodeRefs.{bindings_of};
ghost use Rattle.tree_node.specs.Outcomes.{Outcome};
ghost use Rattle.tree_node.specs.Shelves.{Stays};
ghost use Rattle.tree_node.specs.declared.tree.Tree.TheVariants.{Objects};
ghost use Rattle.tree_walk.specs.WalksGiven.{HasGiven};
ghost use Rattle.osm_keys.specs.Manifests.{top_among};
ghost use Rattle.osm_keys.specs.Publications.{IsPublication, Publication};
ghost use Rattle.ql_eval.specs.Absences.{IsPutIn, IsSound};
ghost use Rattle.ql_eval.specs.Faults.{cause_of_evaluation};
ghost use Rattle.ql_eval.specs.Forms.{HaveForm};
ghost use Rattle.ql_eval.specs.Openings.{IsUnder};
ghost use Rattle.ql_eval.specs.Questions.{NeedsAsk, object_ask};
ghost use Rattle.ql_eval.specs.TrueFaults.{IsAbsent};
ghost use Rattle.ql_eval.specs.internal.Entries.{AreMisread, IsPutBy};
ghost use Rattle.ql_eval.specs.internal.Objects.{AreAbsent, AreRead, IsNoneAt, Remembers};
ghost use Rattle.ql_eval.specs.internal.TrueFaults.{IsTrueUnder};
ghost use Rattle.tree_walk.specs.Uses.{nodes_around};

use crate::fault::EvalFault;
use crate::objects::object_in;
use crate::walks::entries_in;
use osm_keys::{Manifest, reference_key};
use osm_model::{Object, Ref};
use std::alloc::Global;
use std::collections::BTreeMap;
use tree_node::{Item, Shelf, Tree};
use tree_walk::{KeyRange, Tally};

/// The objects that were looked up: a reference's object, or none where there is none.
pub(crate) type Known = BTreeMap<Ref, Option<Object>>;

/// Looks up the object of this name, unless that was done before: one walk over the object tree, whose line is read, and
/// what it found is remembered (docs/FORMATS.md).
///
/// Refused where the walk is (E1), where what it found isn't the entry of an object (E2), and where memory runs out. Over
/// the trees of a publisher only a missing node and memory refuse it, unless two nodes have one digest. What was used until
/// then stays used.
pub(crate) fn look_up<'a, S: Shelf<'a>>(
    alloc: Global,
    shelf: &mut S,
    manifest: &Manifest,
    name: Ref,
    tally: &mut Tally,
    objects: &mut Known,
) -> Result<(), EvalFault>
    ensures stays { Stays S.is_fixed (S.holds shelf.old) (S.holds shelf.new) }
    ensures grows { (bytes : List ℕ) → S.used shelf.old bytes → S.used shelf.new bytes }
    // Only this object was looked for, if any.
    ensures walked { OnOk result (HasGiven (top_among manifest.now.tops)
        (IsSound (λ r. (r ≡ name) × (get ref_cmp objects.new name ≡ Some None)))
        (nodes_around S.holds S.used shelf.old shelf.new)
        tally.old.calls tally.new.calls tally.old.fetches tally.new.fetches) }
    ensures told { IfErr result (IsTrueUnder (S.holds shelf.new) (S.used shelf.new) manifest.now) }
    ensures keeps { (r : Ref) (object : Option Element) → get ref_cmp objects.old r ≡ Some object
        → get ref_cmp objects.new r ≡ Some object }
    ensures known { OnOk result
        ((object : Option Element) × (get ref_cmp objects.new name ≡ Some object)) }
    ensures absent { AreAbsent (S.used shelf.old) manifest.now objects.old
        → AreAbsent (S.used shelf.new) manifest.now objects.new }
    ensures read { AreRead (S.used shelf.old) manifest.now objects.old
        → AreRead (S.used shelf.new) manifest.now objects.new }
    ensures remembers { (p : Publication) → IsUnder p manifest.now
        → Remembers p (S.used shelf.old) objects.old → Remembers p (S.used shelf.new) objects.new }
    ensures answer { (p : Publication) → IsPublication p → IsUnder p manifest.now
        → Remembers p (S.used shelf.old) objects.old
        → Outcome cause_of_evaluation
        (λ _. get ref_cmp objects.new name ≡ Some (object_at p.objects name))
        (NeedsAsk p (object_ask name))
        (nodes_around S.holds S.used shelf.old shelf.new) result }
{
    if objects.contains_key(&name) {
        return Ok(());
    }
    let object = find_object(alloc, shelf, manifest, name, tally)?;
    objects.insert(name, object)?;
    Ok(())
}

/// The object of this name, if it is there: what one walk over the object tree finds.
fn find_object<'a, S: Shelf<'a>>(
    alloc: Global,
    shelf: &mut S,
    manifest: &Manifest,
    name: Ref,
    tally: &mut Tally,
) -> Result<Option<Object>, EvalFault>
    ensures stays { Stays S.is_fixed (S.holds shelf.old) (S.holds shelf.new) }
    ensures grows { (bytes : List ℕ) → S.used shelf.old bytes → S.used shelf.new bytes }
    ensures walked { IfOk result (λ object. HasGiven (top_among manifest.now.tops)
        (IsSound (IsNoneAt name object))
        (nodes_around S.holds S.used shelf.old shelf.new)
        tally.old.calls tally.new.calls tally.old.fetches tally.new.fetches) }
    ensures told { IfErr result (IsTrueUnder (S.holds shelf.new) (S.used shelf.new) manifest.now) }
    ensures absent { IfOk result
        (λ object. object ≡ None → IsAbsent (S.used shelf.new) manifest.now name) }
    ensures put { IfOk result
        (λ object. IfSome object (IsPutIn (S.used shelf.new) manifest.now)) }
    ensures answer { (p : Publication) → IsPublication p → IsUnder p manifest.now
        → Outcome cause_of_evaluation (λ object. object ≡ object_at p.objects name)
        (NeedsAsk p (object_ask name))
        (nodes_around S.holds S.used shelf.old shelf.new) result }
{
    let key = reference_key(name);
    let keys = KeyRange {
        lo: &key,
        hi: &key,
        under: false,
    };
    let found = entries_in(
        alloc,
        shelf,
        manifest,
        Tree::Objects,
        &keys,
        usize::MAX,
        tally,
    )?;
    last_object(alloc, &found)
}

/// The object of the last of some entries of the object tree, all of which are read: in the range of one key there is one
/// at most.
fn last_object(alloc: Global, found: &[Item<'_>]) -> Result<Option<Object>, EvalFault>
    ensures put { IfOk result (IsPutBy (bindings_of found.now)) }
    ensures formed { OnOk result (HaveForm Objects (bindings_of found.now)) }
    ensures refused { IfErr result (AreMisread Objects (bindings_of found.now)) }
{
    let mut last = None;
    for item in found {
        last = Some(object_in(alloc, item)?);
    }
    Ok(last)
}
