//! Queries, answered and proved from the nodes of a pack.

ghost use Rattle.std.specs.Prelude.{◌≡◌, ◌≢◌, ◌⊎◌, Err, IfOk, None};
ghost use Rattle.osm_forms.specs.Forms.{form_text};
ghost use Rattle.osm_forms.specs.declared.form.Form.TheVariants.{Opl};
ghost use Rattle.osm_keys.specs.Publications.{Publication, root_of};
ghost use Rattle.osm_prove.specs.Budgets.{IsWorkOf};
ghost use Rattle.osm_prove.specs.Proved.{IsAnswer, IsProved};
ghost use Rattle.ql_syntax.specs.Queries.{HasFault};
ghost use Rattle.ql_syntax.specs.declared.fault.QlFault.{QlFault};
ghost use Rattle.osm_gate.specs.Mirrors.{KeepsBudget};
ghost use Rattle.pack_mirror.specs.Roots.{StandsFor};

use crate::faults::answer_refused;
use crate::kept::KeptNodes;
use crate::queries::read_query;
use node_pack::ReadAt;
use osm_gate::MirrorFault;
use osm_prove::{Answered, Proved};
use std::alloc::Global;
use tree_node::Digest;

/// The answer to a query under a root, from what is kept and what a pack file gives now. The query is parsed before anything
/// is read.
pub(crate) fn answer_from_nodes<F: ReadAt + Drop>(
    alloc: Global,
    nodes: &mut KeptNodes<F>,
    root: &Digest,
    query: &[u8],
    most: Option<u64>,
) -> Result<Answered, MirrorFault>
    ensures answered { (p : Publication) → StandsFor root.now p
        → IfOk result (λ answered. (answered.root.0 ≡ root_of p)
        × IsAnswer p query.now answered.answer.items) }
    ensures refused { (fault : QlFault) → HasFault query.now fault
        → (result ≡ Err (MirrorFault.Query fault)) ⊎ (result ≡ Err MirrorFault.Memory) }
    ensures told { (fault : QlFault) → result ≡ Err (MirrorFault.Query fault)
        → HasFault query.now fault }
    ensures budget { (p : Publication) → StandsFor root.now p
        → KeepsBudget (IsWorkOf (form_text Opl) p query.now) most result }
    ensures limited { most ≡ None → result ≢ Err MirrorFault.Work }
{
    let parsed = read_query(alloc, query)?;
    match nodes.answer(alloc, &parsed, root, most) {
        Ok(answer) => Ok(Answered {
            root: *root,
            answer,
        }),
        Err(fault) => Err(answer_refused(fault)),
    }
}

/// The answer and its proof, as [`answer_from_nodes`] gives the answer alone.
pub(crate) fn prove_from_nodes<F: ReadAt + Drop>(
    alloc: Global,
    nodes: &mut KeptNodes<F>,
    root: &Digest,
    query: &[u8],
    most: Option<u64>,
) -> Result<Proved, MirrorFault>
    ensures proved { (p : Publication) → StandsFor root.now p
        → IfOk result (λ proved. (proved.root.0 ≡ root_of p)
        × IsProved p query.now proved.answer.items proved.proof.items) }
    ensures refused { (fault : QlFault) → HasFault query.now fault
        → (result ≡ Err (MirrorFault.Query fault)) ⊎ (result ≡ Err MirrorFault.Memory) }
    ensures told { (fault : QlFault) → result ≡ Err (MirrorFault.Query fault)
        → HasFault query.now fault }
    ensures budget { (p : Publication) → StandsFor root.now p
        → KeepsBudget (IsWorkOf (form_text Opl) p query.now) most result }
    ensures limited { most ≡ None → result ≢ Err MirrorFault.Work }
{
    let parsed = read_query(alloc, query)?;
    match nodes.prove(alloc, &parsed, root, most) {
        Ok(both) => Ok(Proved {
            root: *root,
            answer: both.answer,
            proof: both.proof,
        }),
        Err(fault) => Err(answer_refused(fault)),
    }
}
