//! Judging a reply.

ghost use Rattle.std.specs.Prelude.{◌≡◌, ◌≢◌, ◌⊎◌, ℕ, IfOk, List, None, Ok};
ghost use Rattle.std.specs.declared.alloc.Global.{Global};
ghost use Rattle.std.specs.declared.vec.Vec.{Vec};
ghost use Rattle.tree_node.specs.Outcomes.{Clash};
ghost use Rattle.osm_keys.specs.Publications.{IsNodeIn, IsPublication, Publication, root_of};
ghost use Rattle.osm_check.specs.Telling.{IsProvedIn};
ghost use Rattle.osm_check.specs.Verdicts.{StandsIn};
ghost use Rattle.mirror_answer.specs.Showing.{IsRightly, ShowsText};
ghost use Rattle.mirror_answer.specs.internal.Reasons.{IsFaultFor, IsShownFor};

use crate::mirror_fault::MirrorFault;
use crate::shown::Shown;
use mirror_reply::Parts;
use osm_check::{CheckFault, Told, Why, tell_within};
use osm_forms::Form;
use std::alloc::{AllocError, Global};
use tree_node::Digest;

/// What a reply shows of a query under the root that the client holds: the answer in a form, or why there is none. Nothing
/// is assumed of the reply. Of its parts only the proof is looked at, and where that is refused the root that it names,
/// which is the usual reason: such a mirror serves an older or a newer set. Where a budget is given, and more is to be done
/// than it has, that is the fault.
///
/// It takes the time and the memory of `osm_check::tell_within`. Refused only where memory runs out.
pub fn show(
    alloc: Global,
    form: Form,
    query: &[u8],
    root: &Digest,
    parts: Parts<'_>,
    most: Option<u64>,
) -> Result<Shown, AllocError>
    // The headline: under the root of any publication, a text that is shown is the query's meaning over its set in this
    // form, and the proof the one proof of the query, unless a node of the publication and a different one in the proof
    // have the same digest.
    ensures headline { (p : Publication) (text : Vec ℕ Global) → IsPublication p
        → root.now.0 ≡ root_of p → result ≡ Ok (Shown.Answer text)
        → IsProvedIn p query.now form text.items parts.entry.proof.now
        ⊎ Clash (IsNodeIn p) (StandsIn parts.entry.proof.now) }
    // The one proof of the query always shows its meaning, whatever else stands in the reply, unless that is too much work.
    ensures honest { (p : Publication) (text : List ℕ) → IsPublication p → root.now.0 ≡ root_of p
        → IsProvedIn p query.now form text parts.entry.proof.now
        → IfOk result (λ shown. ShowsText text shown ⊎ (shown ≡ Shown.Refused MirrorFault.Work)) }
    // Without a budget no work is too much.
    ensures limited { most ≡ None
        → IfOk result (λ shown. shown ≢ Shown.Refused MirrorFault.Work) }
    // Whatever the root is, an answer is shown by the proof, and a fault is true of query, root and reply.
    ensures rightly { IfOk result (IsRightly (record {
      query = query.now;
      root = root.now.0;
      form = form;
      most = most;
    }) parts.entry.root.now parts.entry.proof.now) }
{
    match tell_within(alloc, form, query, root, parts.proof, most) {
        Ok(Told::Answer { text, report: _ }) => Ok(Shown::Answer(text)),
        Ok(Told::No(why)) => Ok(shown_for(why, root, parts.root)),
        Err(CheckFault::Work) => Ok(Shown::Refused(MirrorFault::Work)),
        Err(CheckFault::Memory) => Err(AllocError),
    }
}

/// What is shown where a proof shows no answer, for this reason.
fn shown_for(why: Why, root: &Digest, named: &[u8]) -> Shown
    ensures { IsShownFor why root.now.0 named.now result }
{
    match why {
        Why::QueryRefused(fault) => Shown::Unread(fault),
        Why::ProofMalformed
        | Why::ProofNotRising
        | Why::NodeMissing
        | Why::NodeMalformed
        | Why::NodesDisagree
        | Why::EntriesDisagree
        | Why::NodeUnused
        | Why::AnswerDiffers(_) => Shown::Refused(fault_of(why, root, named)),
    }
}

/// What a proof is refused for.
fn fault_of(why: Why, root: &Digest, named: &[u8]) -> MirrorFault
    ensures { IsFaultFor why root.now.0 named.now result }
{
    if named == root.0.as_slice() {
        MirrorFault::Proof(why)
    } else {
        MirrorFault::OtherRoot
    }
}
