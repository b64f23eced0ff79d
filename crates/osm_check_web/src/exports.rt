//! What is exported.

ghost use Rattle.std.specs.Prelude.{◌≡◌, ◌≢◌, ◌≤◌, ◌⊎◌, ◌↔◌, length};
ghost use Rattle.tree_node.specs.Outcomes.{Clash};
ghost use Rattle.osm_keys.specs.Publications.{IsNodeIn, IsPublication, Publication, root_of};
ghost use Rattle.osm_prove.specs.Proved.{IsProved};
ghost use Rattle.osm_check.specs.Verdicts.{IsVerdict, StandsIn, TellsOf};
ghost use Rattle.osm_check.specs.declared.verdict.Verdict.{Verdict};
ghost use Rattle.osm_check_web.specs.ToldVerdicts.{IsTold, IsToldLike, nothing};

use crate::told::{
    BAD_ROOT, NO, NO_MEMORY, Told, YES, status_of_verdict, told_nothing, told_of_verdict,
};
use osm_check::{Digest, check};
use std::alloc::Global;

/// Whether an answer is right: what [`osm_check::check`] says, as a status ([`YES`], [`NO`], [`NO_MEMORY`] or
/// [`BAD_ROOT`]) and the rest in `told`, whatever was there before.
///
/// `root` has 32 bytes, or the status is [`BAD_ROOT`]; nothing is assumed of the others. Memory is taken from `alloc`,
/// and given back before the call ends. It grows with the number of the proof's nodes, and not with their bytes.
#[unsafe(no_mangle)]
pub extern "C" fn osm_check_verdict(
    alloc: Global,
    query: &[u8],
    root: &[u8],
    answer: &[u8],
    proof: &[u8],
    told: &mut Told,
) -> u32
    // The headline: under the root of any publication, a yes says that the answer is the query's meaning over its set,
    // and the proof the one proof of it, unless a node of the publication and a different one in the proof have the
    // same digest.
    ensures headline { (p : Publication) → IsPublication p → root.now ≡ root_of p → result ≡ YES
        → IsProved p query.now answer.now proof.now ⊎ Clash (IsNodeIn p) (StandsIn proof.now) }
    // An honest mirror is always accepted, unless memory runs out.
    ensures honest { (p : Publication) → IsPublication p → root.now ≡ root_of p
        → IsProved p query.now answer.now proof.now → (result ≡ YES) ⊎ (result ≡ NO_MEMORY) }
    // What is told of an answer that was judged is the verdict that is owed,
    ensures verdict { (result ≡ YES) ⊎ (result ≡ NO) → (verdict : Verdict)
        × IsTold result told.new verdict × IsVerdict query.now root.now answer.now proof.now verdict }
    // and under the root of a publication the one that is owed is told, with the same exceptions.
    ensures only { (p : Publication) (owed : Verdict) → IsPublication p → root.now ≡ root_of p
        → TellsOf p query.now answer.now proof.now owed → (result ≡ NO_MEMORY)
        ⊎ (IsToldLike result told.new owed ⊎ Clash (IsNodeIn p) (StandsIn proof.now)) }
    // The root is looked at first, and no other status comes; without a verdict nothing is told.
    ensures bad_root { (result ≡ BAD_ROOT) ↔ (length root.now ≢ 32) }
    ensures statuses { result ≤ BAD_ROOT }
    ensures nothing { NO_MEMORY ≤ result → told.new ≡ nothing }
{
    let Some(root) = Digest::from_slice(root) else {
        *told = told_nothing();
        return BAD_ROOT;
    };
    match check(alloc, query, &root, answer, proof) {
        Ok(verdict) => {
            *told = told_of_verdict(verdict);
            status_of_verdict(verdict)
        }
        Err(_) => {
            *told = told_nothing();
            NO_MEMORY
        }
    }
}
