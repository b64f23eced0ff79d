//! Recursions from a set, asked of a source.

ghost use Rattle.std.specs.Prelude.{◌≡◌, ℕ, IfErr, IfOk, List, OnOk, length};
ghost use Rattle.osm_keys.specs.Publications.{IsPublication, Publication};
ghost use Rattle.ql_syntax.specs.declared.recursion.Recursion.TheVariants as recursions;
ghost use Rattle.ref_sets.specs.Adding.{Adds};
ghost use Rattle.ref_sets.specs.Sets.{IsSetOf};
ghost use Rattle.ql_meaning.specs.Values.{IsReached, IsRefOf};
ghost use Rattle.ql_eval.specs.Asks.{AskedByRecursion};
ghost use Rattle.ql_eval.specs.Questions.{NeededBy};
ghost use Rattle.ql_eval.specs.Work.{HasNoClash, OfSet, Steps};
ghost use Rattle.ql_eval.specs.internal.Links.{AreThere, IsMemberAsk, IsMemberBelow};
ghost use Rattle.ql_eval.specs.internal.Giving.{AllGiven};
ghost use Rattle.ql_eval.specs.internal.Metering.{IsBounded};
ghost use Rattle.ql_eval.specs.internal.Truths.{EndsTruly};

use crate::chains::{Direction, closure};
use crate::fault::EvalFault;
use crate::links::{members_there, referrers_of};
use crate::meter::Meter;
use crate::source::Source;
use osm_model::{Kind, Ref};
use ql_syntax::Recursion;
use ref_sets::RefSet;
use std::alloc::Global;
use std::rc::Rc;

/// What a recursion gives from a set. Where the query asked the same before, it is what was given then, and no tree is
/// asked. Refused, as by the meter, where what was reached so far passes the budget: whoever writes the set counts it.
pub(crate) fn recurse_once<W: Source>(
    alloc: Global,
    source: &mut W,
    meter: &mut Meter,
    how: Recursion,
    set: Rc<RefSet>,
) -> Result<Rc<RefSet>, EvalFault>
    requires { AllGiven (W.gave source.old) set.value }
    ensures later { W.later source.old source.new }
    ensures walked { OnOk result (W.walked source.old source.new) }
    ensures told { IfErr result (W.tells source.new) }
    ensures named { IfOk result (λ refs. AllGiven (W.gave source.new) refs.value) }
    ensures answer { (p : Publication) → IsPublication p → W.under source.old p
        → AreThere p.objects set.value
        → EndsTruly W.holds W.used W.under source.old source.new p
        (λ refs. IsSetOf refs.value (IsRefOf p.objects (IsReached p.objects how set.value)))
        (NeededBy p (AskedByRecursion p how set.value)) result }
    ensures bounded { (p : Publication) → IsPublication p → W.under source.old p
        → AreThere p.objects set.value → HasNoClash p (W.used source.new)
        → IsBounded (OfSet (IsRefOf p.objects (IsReached p.objects how set.value))
        (λ found. Steps (length found))) meter.old.spent meter.new.spent }
    ensures same { OnOk result (meter.new.spent ≡ meter.old.spent) }
{
    if let Some(refs) = source.recalled(how, &set) {
        return Ok(refs.clone()?);
    }
    let refs = Rc::new(alloc, recurse(alloc, source, meter, how, &set)?)?;
    source.remember(how, set, refs.clone()?)?;
    Ok(refs)
}

/// What a recursion gives from a set, as a set (the Overpass QL page, "Recurse").
fn recurse<W: Source>(
    alloc: Global,
    source: &mut W,
    meter: &mut Meter,
    how: Recursion,
    set: &RefSet,
) -> Result<RefSet, EvalFault>
    requires { AllGiven (W.gave source.old) set.now }
    ensures later { W.later source.old source.new }
    ensures walked { OnOk result (W.walked source.old source.new) }
    ensures told { IfErr result (W.tells source.new) }
    ensures named { IfOk result (AllGiven (W.gave source.new)) }
    ensures answer { (p : Publication) → IsPublication p → W.under source.old p
        → AreThere p.objects set.now
        → EndsTruly W.holds W.used W.under source.old source.new p
        (λ refs. IsSetOf refs (IsRefOf p.objects (IsReached p.objects how set.now)))
        (NeededBy p (AskedByRecursion p how set.now)) result }
    ensures bounded { (p : Publication) → IsPublication p → W.under source.old p
        → AreThere p.objects set.now → HasNoClash p (W.used source.new)
        → IsBounded (OfSet (IsRefOf p.objects (IsReached p.objects how set.now))
        (λ found. Steps (length found))) meter.old.spent meter.new.spent }
    ensures same { OnOk result (meter.new.spent ≡ meter.old.spent) }
{
    match how {
        Recursion::Down => down(alloc, source, set),
        Recursion::Up => up(alloc, source, set),
        Recursion::DownAll => closure(alloc, source, meter, set.as_slice(), Direction::Down),
        Recursion::UpAll => closure(alloc, source, meter, set.as_slice(), Direction::Up),
    }
}

/// `>`: what ways of the set list; the nodes and ways that its relations list, and what these ways list.
fn down<W: Source>(alloc: Global, source: &mut W, set: &RefSet) -> Result<RefSet, EvalFault>
    requires { AllGiven (W.gave source.old) set.now }
    ensures later { W.later source.old source.new }
    ensures walked { OnOk result (W.walked source.old source.new) }
    ensures told { IfErr result (W.tells source.new) }
    ensures named { IfOk result (AllGiven (W.gave source.new)) }
    ensures answer { (p : Publication) → IsPublication p → W.under source.old p
        → AreThere p.objects set.now
        → EndsTruly W.holds W.used W.under source.old source.new p
        (λ refs. IsSetOf refs (IsRefOf p.objects (IsReached p.objects recursions.Down set.now)))
        (NeededBy p (AskedByRecursion p recursions.Down set.now)) result }
{
    let ways = set.of_kinds(Kind::Way, Kind::Way);
    let relations = set.of_kinds(Kind::Rel, Kind::Rel);
    let below_ways = members_there(alloc, source, ways, Kind::Node, Kind::Rel)?;
    let mut refs = below_ways.into_refs();
    add_members(alloc, source, relations, &mut refs)?;
    Ok(RefSet::from_refs(refs))
}

/// Adds the nodes and ways that some relations list, and what these ways list.
fn add_members<W: Source>(
    alloc: Global,
    source: &mut W,
    relations: &[Ref],
    refs: &mut Vec<Ref>,
) -> Result<(), EvalFault>
    requires named { AllGiven (W.gave source.old) refs.old.items }
    requires relations_named { AllGiven (W.gave source.old) relations.now }
    ensures later { W.later source.old source.new }
    ensures walked { OnOk result (W.walked source.old source.new) }
    ensures told { IfErr result (W.tells source.new) }
    ensures named { OnOk result (AllGiven (W.gave source.new) refs.new.items) }
    ensures answer { (p : Publication) → IsPublication p → W.under source.old p
        → AreThere p.objects relations.now
        → EndsTruly W.holds W.used W.under source.old source.new p
        (λ _. Adds refs.old.items refs.new.items (IsMemberBelow p.objects relations.now))
        (NeededBy p (IsMemberAsk p relations.now)) result }
{
    let members = members_there(alloc, source, relations, Kind::Node, Kind::Way)?;
    let ways = members.of_kinds(Kind::Way, Kind::Way);
    let inner = members_there(alloc, source, ways, Kind::Node, Kind::Rel)?;
    refs.extend_from_slice(members.as_slice())?;
    refs.extend_from_slice(inner.as_slice())?;
    Ok(())
}

/// `<`: what lists a node or way of the set, and what lists such a way.
fn up<W: Source>(alloc: Global, source: &mut W, set: &RefSet) -> Result<RefSet, EvalFault>
    requires { AllGiven (W.gave source.old) set.now }
    ensures later { W.later source.old source.new }
    ensures walked { OnOk result (W.walked source.old source.new) }
    ensures told { IfErr result (W.tells source.new) }
    ensures named { IfOk result (AllGiven (W.gave source.new)) }
    ensures answer { (p : Publication) → IsPublication p → W.under source.old p
        → AreThere p.objects set.now
        → EndsTruly W.holds W.used W.under source.old source.new p
        (λ refs. IsSetOf refs (IsRefOf p.objects (IsReached p.objects recursions.Up set.now)))
        (NeededBy p (AskedByRecursion p recursions.Up set.now)) result }
{
    let children = set.of_kinds(Kind::Node, Kind::Way);
    let first = referrers_of(alloc, source, children, None)?;
    let ways = first.of_kinds(Kind::Way, Kind::Way);
    let outer = referrers_of(alloc, source, ways, None)?;
    Ok(first.union(alloc, &outer)?)
}
