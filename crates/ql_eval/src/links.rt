//! What objects list, and what lists them, asked of a source.

ghost use Rattle.std.specs.Prelude.{◌≡◌, ℕ, IfErr, IfOk, List, OnOk};
ghost use Rattle.std.specs.List.{Contains};
ghost use Rattle.osm_model.specs.declared.kind.Kind.{Kind};
ghost use Rattle.osm_keys.specs.Publications.{IsPublication, Publication};
ghost use Rattle.ref_sets.specs.Adding.{Adds, From};
ghost use Rattle.ref_sets.specs.Sets.{IsSetOf};
ghost use Rattle.ql_eval.specs.Questions.{NeededBy};
ghost use Rattle.ql_eval.specs.internal.Entries.{IsThere};
ghost use Rattle.ql_eval.specs.internal.Links.{AreThere, IsBackAsk, IsBelowAsk, IsListedIn, IsListedOf, IsObjectAsk, IsParentAsk, IsThereAs, ListsIt};
ghost use Rattle.ql_eval.specs.internal.Objects.{AreKnownParents, IsKnownParent};
ghost use Rattle.ql_eval.specs.internal.Giving.{AllGiven};
ghost use Rattle.ql_eval.specs.internal.Truths.{EndsTruly};

use crate::announcing::announce_all;
use crate::fault::EvalFault;
use crate::items::add_items;
use crate::question::Question;
use crate::source::Source;
use osm_model::{Kind, Ref};
use ref_sets::RefSet;
use std::alloc::Global;

/// What the ways and relations of some references list, as a set. Nodes list nothing, and aren't asked. `Absent` where
/// one isn't there.
pub(crate) fn members_of<W: Source>(
    alloc: Global,
    source: &mut W,
    names: &[Ref],
) -> Result<RefSet, EvalFault>
    requires { AllGiven (W.gave source.old) names.now }
    ensures later { W.later source.old source.new }
    ensures walked { OnOk result (W.walked source.old source.new) }
    ensures told { IfErr result (W.tells source.new) }
    ensures listed { IfOk result (AllGiven (W.may_be_absent source.new)) }
    ensures there { OnOk result (AreKnownParents (W.knows source.new) names.now) }
    ensures answer { (p : Publication) → IsPublication p → W.under source.old p
        → AreThere p.objects names.now
        → EndsTruly W.holds W.used W.under source.old source.new p
        (λ refs. IsSetOf refs (From names.now (IsListedOf p.objects)))
        (NeededBy p (From names.now (IsParentAsk p))) result }
{
    let mut listed = Vec::new(alloc);
    for name in names {
        add_listed(source, *name, &mut listed)?;
    }
    Ok(RefSet::from_refs(listed))
}

/// Adds what the object with a reference lists.
fn add_listed<W: Source>(source: &mut W, name: Ref, listed: &mut Vec<Ref>) -> Result<(), EvalFault>
    requires gave { W.gave source.old name }
    requires listed { AllGiven (W.may_be_absent source.old) listed.old.items }
    ensures later { W.later source.old source.new }
    ensures walked { OnOk result (W.walked source.old source.new) }
    ensures told { IfErr result (W.tells source.new) }
    ensures listed { OnOk result (AllGiven (W.may_be_absent source.new) listed.new.items) }
    ensures there { OnOk result (IsKnownParent (W.knows source.new) name) }
    ensures answer { (p : Publication) → IsPublication p → W.under source.old p
        → IsThere p.objects name
        → EndsTruly W.holds W.used W.under source.old source.new p
        (λ _. Adds listed.old.items listed.new.items (IsListedOf p.objects name))
        (NeededBy p (IsParentAsk p name)) result }
{
    if name.kind == Kind::Node {
        return Ok(());
    }
    source.look_up(name)?;
    match source.known(name) {
        Some(object) => {
            add_items(object, listed)?;
            Ok(())
        }
        None => Err(EvalFault::Absent),
    }
}

/// Those of some references that are of objects that are there, as a set. Each may be absent.
pub(crate) fn those_there<W: Source>(
    alloc: Global,
    source: &mut W,
    names: &[Ref],
) -> Result<RefSet, EvalFault>
    requires { AllGiven (W.may_be_absent source.old) names.now }
    ensures later { W.later source.old source.new }
    ensures walked { OnOk result (W.walked source.old source.new) }
    ensures told { IfErr result (W.tells source.new) }
    ensures named { IfOk result (AllGiven (W.gave source.new)) }
    ensures answer { (p : Publication) → IsPublication p → W.under source.old p
        → EndsTruly W.holds W.used W.under source.old source.new p
        (λ refs. IsSetOf refs (From names.now (IsThereAs p.objects)))
        (NeededBy p (From names.now IsObjectAsk)) result }
{
    announce_all(source, names);
    let mut there = Vec::new(alloc);
    for name in names {
        add_there(source, *name, &mut there)?;
    }
    Ok(RefSet::from_refs(there))
}

/// Adds a reference where its object is there.
fn add_there<W: Source>(source: &mut W, name: Ref, there: &mut Vec<Ref>) -> Result<(), EvalFault>
    requires may { W.may_be_absent source.old name }
    requires named { AllGiven (W.gave source.old) there.old.items }
    ensures later { W.later source.old source.new }
    ensures walked { OnOk result (W.walked source.old source.new) }
    ensures told { IfErr result (W.tells source.new) }
    ensures named { OnOk result (AllGiven (W.gave source.new) there.new.items) }
    ensures answer { (p : Publication) → IsPublication p → W.under source.old p
        → EndsTruly W.holds W.used W.under source.old source.new p
        (λ _. Adds there.old.items there.new.items (IsThereAs p.objects name))
        (NeededBy p (IsObjectAsk name)) result }
{
    let is_there = source.has(name)?;
    if is_there {
        there.push(name)?;
    }
    Ok(())
}

/// What lists one of some references and is of a kind, or of any, as a set.
pub(crate) fn referrers_of<W: Source>(
    alloc: Global,
    source: &mut W,
    names: &[Ref],
    kind: Option<Kind>,
) -> Result<RefSet, EvalFault>
    ensures later { W.later source.old source.new }
    ensures walked { OnOk result (W.walked source.old source.new) }
    ensures told { IfErr result (W.tells source.new) }
    ensures named { IfOk result (AllGiven (W.gave source.new)) }
    ensures answer { (p : Publication) → IsPublication p → W.under source.old p
        → EndsTruly W.holds W.used W.under source.old source.new p
        (λ refs. IsSetOf refs (From names.now (ListsIt p.objects kind)))
        (NeededBy p (From names.now (IsBackAsk kind))) result }
{
    let mut refs = Vec::new(alloc);
    for name in names {
        add_referrers(source, *name, kind, &mut refs)?;
    }
    Ok(RefSet::from_refs(refs))
}

/// Adds what lists an object.
fn add_referrers<W: Source>(
    source: &mut W,
    name: Ref,
    kind: Option<Kind>,
    refs: &mut Vec<Ref>,
) -> Result<(), EvalFault>
    requires { AllGiven (W.gave source.old) refs.old.items }
    ensures later { W.later source.old source.new }
    ensures walked { OnOk result (W.walked source.old source.new) }
    ensures told { IfErr result (W.tells source.new) }
    ensures named { OnOk result (AllGiven (W.gave source.new) refs.new.items) }
    ensures answer { (p : Publication) → IsPublication p → W.under source.old p
        → EndsTruly W.holds W.used W.under source.old source.new p
        (λ _. Adds refs.old.items refs.new.items (ListsIt p.objects kind name))
        (NeededBy p (IsBackAsk kind name)) result }
{
    let found = source.names(&Question::ThatList(name, kind), usize::MAX)?;
    refs.extend_from_slice(found.as_slice())?;
    Ok(())
}

/// What the ways and relations of some references list that is there and of the kinds from one to another, as a set.
pub(crate) fn members_there<W: Source>(
    alloc: Global,
    source: &mut W,
    names: &[Ref],
    first: Kind,
    last: Kind,
) -> Result<RefSet, EvalFault>
    requires { AllGiven (W.gave source.old) names.now }
    ensures later { W.later source.old source.new }
    ensures walked { OnOk result (W.walked source.old source.new) }
    ensures told { IfErr result (W.tells source.new) }
    ensures named { IfOk result (AllGiven (W.gave source.new)) }
    ensures answer { (p : Publication) → IsPublication p → W.under source.old p
        → AreThere p.objects names.now
        → EndsTruly W.holds W.used W.under source.old source.new p
        (λ refs. IsSetOf refs
        (λ r. IsListedIn p.objects names.now first last r × IsThere p.objects r))
        (NeededBy p (IsBelowAsk p names.now first last)) result }
{
    let listed = members_of(alloc, source, names)?;
    those_there(alloc, source, listed.of_kinds(first, last))
}
