//! Paths from a set, asked of a source.

ghost use Rattle.std.specs.Prelude.{◌≡◌, ◌≢◌, ℕ, IfErr, IfOk, List, OnOk};
ghost use Rattle.osm_model.specs.declared.kind.Kind.TheVariants as kinds;
ghost use Rattle.osm_keys.specs.Publications.{IsPublication, Publication};
ghost use Rattle.ref_sets.specs.Sets.{IsSetOf};
ghost use Rattle.ql_eval.specs.Asks.{AskedBelow, AskedByPath};
ghost use Rattle.ql_eval.specs.Questions.{NeededBy};
ghost use Rattle.ql_eval.specs.internal.Links.{AreThere};
ghost use Rattle.ql_eval.specs.internal.Paths.{IsAt, IsBelowOf};
ghost use Rattle.ql_eval.specs.internal.Giving.{AllGiven};
ghost use Rattle.ql_eval.specs.internal.Truths.{EndsTruly};

use crate::fault::EvalFault;
use crate::kinds::{first_kind, last_kind};
use crate::links::{members_there, referrers_of};
use crate::source::Source;
use osm_model::Kind;
use ql_syntax::Path;
use ref_sets::RefSet;
use std::alloc::Global;

/// Where a path leads from a set: the objects of a kind, or of all kinds, as a set (the Overpass QL page, "Recurse
/// (n, w, r, bn, bw, br)").
pub(crate) fn on_path<W: Source>(
    alloc: Global,
    source: &mut W,
    path: Path,
    set: &RefSet,
    kind: Option<Kind>,
) -> Result<RefSet, EvalFault>
    requires { AllGiven (W.gave source.old) set.now }
    ensures later { W.later source.old source.new }
    ensures walked { OnOk result (W.walked source.old source.new) }
    ensures told { IfErr result (W.tells source.new) }
    ensures named { IfOk result (AllGiven (W.gave source.new)) }
    ensures answer { (p : Publication) → IsPublication p → W.under source.old p
        → AreThere p.objects set.now
        → EndsTruly W.holds W.used W.under source.old source.new p
        (λ refs. IsSetOf refs (IsAt p.objects set.now kind path))
        (NeededBy p (AskedByPath p set.now kind path)) result }
{
    match path {
        Path::W => below_of(alloc, source, set, Kind::Way, kind),
        Path::R => below_of(alloc, source, set, Kind::Rel, kind),
        Path::Bn => referrers_of(alloc, source, set.of_kinds(Kind::Node, Kind::Node), kind),
        Path::Bw => referrers_of(alloc, source, set.of_kinds(Kind::Way, Kind::Way), kind),
        Path::Br => referrers_of(alloc, source, set.of_kinds(Kind::Rel, Kind::Rel), kind),
    }
}

/// What the ways, or the relations, of a set list that is there and of a kind, or of any, as a set.
fn below_of<W: Source>(
    alloc: Global,
    source: &mut W,
    set: &RefSet,
    from: Kind,
    kind: Option<Kind>,
) -> Result<RefSet, EvalFault>
    requires { AllGiven (W.gave source.old) set.now }
    ensures later { W.later source.old source.new }
    ensures walked { OnOk result (W.walked source.old source.new) }
    ensures told { IfErr result (W.tells source.new) }
    ensures named { IfOk result (AllGiven (W.gave source.new)) }
    ensures answer { (p : Publication) → IsPublication p → W.under source.old p
        → AreThere p.objects set.now → from ≢ kinds.Node
        → EndsTruly W.holds W.used W.under source.old source.new p
        (λ refs. IsSetOf refs (IsBelowOf p.objects set.now from kind))
        (NeededBy p (AskedBelow p set.now from kind)) result }
{
    let names = set.of_kinds(from, from);
    members_there(alloc, source, names, first_kind(kind), last_kind(kind))
}
