//! Chains of membership of any length, asked of a source.

ghost use Rattle.std.specs.Prelude.{◌≡◌, ◌++◌, ℕ, IfErr, IfOk, List, OnOk, length};
ghost use Rattle.std.specs.List.{Contains};
ghost use Rattle.osm_keys.specs.Publications.{IsPublication, Publication};
ghost use Rattle.ref_sets.specs.Adding.{Adds, From};
ghost use Rattle.ref_sets.specs.Sets.{IsSetOf};
ghost use Rattle.ql_eval.specs.Questions.{NeededBy};
ghost use Rattle.ql_eval.specs.Work.{HasNoClash, OfSet, Steps};
ghost use Rattle.ql_eval.specs.internal.Affording.{AreApart};
ghost use Rattle.ql_eval.specs.internal.Chains.{IsEnd, IsEndAsk, Leads, LeadsAsk};
ghost use Rattle.ql_eval.specs.internal.Founds.{Goes, IsConsistent};
ghost use Rattle.ql_eval.specs.internal.Links.{AreThere};
ghost use Rattle.ql_eval.specs.internal.Giving.{AllGiven};
ghost use Rattle.ql_eval.specs.internal.Metering.{IsBounded};
ghost use Rattle.ql_eval.specs.internal.Truths.{EndsTruly};

use crate::fault::EvalFault;
use crate::found::Found;
use crate::links::{members_there, referrers_of};
use crate::meter::Meter;
use crate::source::Source;
use osm_model::{Kind, Ref};
use ref_sets::RefSet;
use std::alloc::{AllocError, Global};

/// Where chains lead.
#[derive(Clone, Copy)]
pub(crate) enum Direction {
    /// To what objects list.
    Down,
    /// To what lists objects.
    Up,
}

/// What one or more steps lead to from some references, as a set. What was found is gone on from in rounds, each
/// reference once; cycles end where a round finds nothing new. Refused, as by the meter, where the references alone that
/// were found so far pass the budget: whoever writes the set counts them.
pub(crate) fn closure<W: Source>(
    alloc: Global,
    source: &mut W,
    meter: &mut Meter,
    from: &[Ref],
    direction: Direction,
) -> Result<RefSet, EvalFault>
    requires { AllGiven (W.gave source.old) from.now }
    ensures later { W.later source.old source.new }
    ensures walked { OnOk result (W.walked source.old source.new) }
    ensures told { IfErr result (W.tells source.new) }
    ensures named { IfOk result (AllGiven (W.gave source.new)) }
    ensures answer { (p : Publication) → IsPublication p → W.under source.old p
        → AreThere p.objects from.now
        → EndsTruly W.holds W.used W.under source.old source.new p
        (λ refs. IsSetOf refs (IsEnd direction p.objects from.now))
        (NeededBy p (IsEndAsk direction p from.now)) result }
    ensures bounded { (p : Publication) → IsPublication p → W.under source.old p
        → AreThere p.objects from.now → HasNoClash p (W.used source.new)
        → IsBounded (OfSet (IsEnd direction p.objects from.now) (λ found. Steps (length found)))
        meter.old.spent meter.new.spent }
    ensures same { OnOk result (meter.new.spent ≡ meter.old.spent) }
{
    let mut found = Found::new(alloc);
    let next = one_link(alloc, source, from, direction)?;
    add_all(next.as_slice(), &mut found)?;
    let mut at = 0;
    while at < found.refs.len() {
        meter.afford(found.refs.len() as u64)?;
        let next = one_link(alloc, source, &found.refs[at..], direction)?;
        at = found.refs.len();
        add_all(next.as_slice(), &mut found)?;
    }
    let Found { seen: _, refs } = found;
    Ok(RefSet::from_refs(refs))
}

/// What a step leads to from one of some references, as a set.
fn one_link<W: Source>(
    alloc: Global,
    source: &mut W,
    names: &[Ref],
    direction: Direction,
) -> Result<RefSet, EvalFault>
    requires { AllGiven (W.gave source.old) names.now }
    ensures later { W.later source.old source.new }
    ensures walked { OnOk result (W.walked source.old source.new) }
    ensures told { IfErr result (W.tells source.new) }
    ensures named { IfOk result (AllGiven (W.gave source.new)) }
    ensures answer { (p : Publication) → IsPublication p → W.under source.old p
        → AreThere p.objects names.now
        → EndsTruly W.holds W.used W.under source.old source.new p
        (λ refs. IsSetOf refs (From names.now (Leads direction p.objects)))
        (NeededBy p (From names.now (LeadsAsk direction p))) result }
{
    match direction {
        Direction::Down => members_there(alloc, source, names, Kind::Node, Kind::Rel),
        Direction::Up => referrers_of(alloc, source, names, None),
    }
}

/// Adds references, where they are new.
fn add_all(names: &[Ref], found: &mut Found) -> Result<(), AllocError>
    requires { IsConsistent found.old }
    ensures consistent { OnOk result (IsConsistent found.new) }
    ensures goes { OnOk result (Goes found.old.refs.items found.new.refs.items) }
    ensures added { OnOk result
        (Adds found.old.refs.items found.new.refs.items (Contains names.now)) }
    ensures apart { OnOk result
        (AreApart found.old.refs.items → AreApart found.new.refs.items) }
{
    for name in names {
        found.add(*name)?;
    }
    Ok(())
}
