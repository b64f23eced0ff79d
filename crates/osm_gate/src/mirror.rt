//! What queries are asked of.

ghost use Rattle.std.specs.Prelude.{Bool, ◌≡◌, ◌≢◌, ◌⊎◌, Err, IfOk, None, true};
ghost use Rattle.osm_forms.specs.Forms.{form_text};
ghost use Rattle.osm_forms.specs.declared.form.Form.TheVariants.{Opl};
ghost use Rattle.osm_keys.specs.Publications.{Publication, root_of};
ghost use Rattle.osm_prove.specs.Budgets.{IsWorkOf};
ghost use Rattle.osm_prove.specs.Proved.{IsAnswer, IsProved};
ghost use Rattle.ql_syntax.specs.Queries.{HasFault};
ghost use Rattle.ql_syntax.specs.declared.fault.QlFault.{QlFault};
ghost use Rattle.osm_gate.specs.Mirrors.{KeepsBudget};
ghost use Rattle.osm_index.specs.Snapshots.{HoldsPublication};

use crate::mirror_fault::{MirrorFault, fault_of};
use osm_index::Snapshot;
use osm_prove::{Answered, Proved, answer_within, prove_within};
use std::alloc::Global;
use tree_node::Digest;

/// A set that queries are asked of, however it is held: in memory, as a [`Snapshot`], or on a device.
pub trait Mirror {
    /// The set is that of this publication, under its root.
    ghost holds: { Self → Publication → Type 0 };

    /// Whether its nodes are read from a device, which may fail.
    ghost may_fail: { Bool };

    /// The root of the set.
    fn root(&self) -> &Digest
        ensures { (p : Publication) → holds self.now p → result.now.0 ≡ root_of p };

    /// The answer to a query and the root, within a budget, where there is one. The query is these bytes as they stand.
    ///
    /// Refused with `Query` exactly where the query doesn't read, and else only with `Work`, `Device` or where memory runs
    /// out. What was remembered of nodes meanwhile makes no difference to any later call.
    fn answer_within(
        &mut self,
        alloc: Global,
        query: &[u8],
        most: Option<u64>,
    ) -> Result<Answered, MirrorFault>
        // What is given is the root, and the query's meaning over the set.
        ensures answered { (p : Publication) → holds self.old p
            → IfOk result (λ answered. (answered.root.0 ≡ root_of p)
            × IsAnswer p query.now answered.answer.items) }
        // A query with a fault is refused with it, unless memory runs out,
        ensures refused { (fault : QlFault) → HasFault query.now fault
            → (result ≡ Err (MirrorFault.Query fault)) ⊎ (result ≡ Err MirrorFault.Memory) }
        // and no other is told.
        ensures told { (fault : QlFault) → result ≡ Err (MirrorFault.Query fault)
            → HasFault query.now fault }
        // It is answered only where its work is within the budget, and refused for the budget only where it is too much.
        ensures budget { (p : Publication) → holds self.old p
            → KeepsBudget (IsWorkOf (form_text Opl) p query.now) most result }
        // Without a budget no work is too much,
        ensures limited { most ≡ None → result ≢ Err MirrorFault.Work }
        // and without a device none fails.
        ensures failed { result ≡ Err MirrorFault.Device → may_fail ≡ true }
        ensures same { self.new ≡ self.old };

    /// The answer to a query, the root, and the proof of both, within a budget, where there is one. Refused as
    /// [`Mirror::answer_within`].
    fn prove_within(
        &mut self,
        alloc: Global,
        query: &[u8],
        most: Option<u64>,
    ) -> Result<Proved, MirrorFault>
        // What is given is the root, the query's meaning over the set, and the one proof.
        ensures proved { (p : Publication) → holds self.old p
            → IfOk result (λ proved. (proved.root.0 ≡ root_of p)
            × IsProved p query.now proved.answer.items proved.proof.items) }
        // A query with a fault is refused with it, unless memory runs out,
        ensures refused { (fault : QlFault) → HasFault query.now fault
            → (result ≡ Err (MirrorFault.Query fault)) ⊎ (result ≡ Err MirrorFault.Memory) }
        // and no other is told.
        ensures told { (fault : QlFault) → result ≡ Err (MirrorFault.Query fault)
            → HasFault query.now fault }
        // It is answered only where its work is within the budget, and refused for the budget only where it is too much.
        ensures budget { (p : Publication) → holds self.old p
            → KeepsBudget (IsWorkOf (form_text Opl) p query.now) most result }
        // Without a budget no work is too much,
        ensures limited { most ≡ None → result ≢ Err MirrorFault.Work }
        // and without a device none fails.
        ensures failed { result ≡ Err MirrorFault.Device → may_fail ≡ true }
        ensures same { self.new ≡ self.old };
}

impl Mirror for Snapshot {
    ghost use Rattle.std.specs.Prelude.{false};
    ghost use Rattle.osm_index.specs.Snapshots.{HoldsPublication};

    ghost holds = { λ snapshot p. HoldsPublication snapshot p };

    ghost may_fail = { false };

    fn root(&self) -> &Digest {
        self.root()
    }

    fn answer_within(
        &mut self,
        alloc: Global,
        query: &[u8],
        most: Option<u64>,
    ) -> Result<Answered, MirrorFault> {
        answer_in_memory(alloc, self, query, most)
    }

    fn prove_within(
        &mut self,
        alloc: Global,
        query: &[u8],
        most: Option<u64>,
    ) -> Result<Proved, MirrorFault> {
        prove_in_memory(alloc, self, query, most)
    }
}

impl Mirror for &Snapshot {
    ghost use Rattle.std.specs.Prelude.{false};
    ghost use Rattle.osm_index.specs.Snapshots.{HoldsPublication};

    ghost holds = { λ snapshot p. HoldsPublication snapshot.now p };

    ghost may_fail = { false };

    fn root(&self) -> &Digest {
        (*self).root()
    }

    fn answer_within(
        &mut self,
        alloc: Global,
        query: &[u8],
        most: Option<u64>,
    ) -> Result<Answered, MirrorFault> {
        answer_in_memory(alloc, self, query, most)
    }

    fn prove_within(
        &mut self,
        alloc: Global,
        query: &[u8],
        most: Option<u64>,
    ) -> Result<Proved, MirrorFault> {
        prove_in_memory(alloc, self, query, most)
    }
}

/// The answer to a query over a snapshot, as [`Mirror::answer_within`] gives it.
fn answer_in_memory(
    alloc: Global,
    snapshot: &Snapshot,
    query: &[u8],
    most: Option<u64>,
) -> Result<Answered, MirrorFault>
    ensures answered { (p : Publication) → HoldsPublication snapshot.now p
        → IfOk result (λ answered. (answered.root.0 ≡ root_of p)
        × IsAnswer p query.now answered.answer.items) }
    ensures refused { (fault : QlFault) → HasFault query.now fault
        → (result ≡ Err (MirrorFault.Query fault)) ⊎ (result ≡ Err MirrorFault.Memory) }
    ensures told { (fault : QlFault) → result ≡ Err (MirrorFault.Query fault) → HasFault query.now fault }
    ensures budget { (p : Publication) → HoldsPublication snapshot.now p
        → KeepsBudget (IsWorkOf (form_text Opl) p query.now) most result }
    ensures limited { most ≡ None → result ≢ Err MirrorFault.Work }
    ensures failed { result ≢ Err MirrorFault.Device }
{
    match answer_within(alloc, snapshot, query, most) {
        Ok(answered) => Ok(answered),
        Err(fault) => Err(fault_of(fault)),
    }
}

/// The answer to a query over a snapshot with its proof, as [`Mirror::prove_within`] gives them.
fn prove_in_memory(
    alloc: Global,
    snapshot: &Snapshot,
    query: &[u8],
    most: Option<u64>,
) -> Result<Proved, MirrorFault>
    ensures proved { (p : Publication) → HoldsPublication snapshot.now p
        → IfOk result (λ proved. (proved.root.0 ≡ root_of p)
        × IsProved p query.now proved.answer.items proved.proof.items) }
    ensures refused { (fault : QlFault) → HasFault query.now fault
        → (result ≡ Err (MirrorFault.Query fault)) ⊎ (result ≡ Err MirrorFault.Memory) }
    ensures told { (fault : QlFault) → result ≡ Err (MirrorFault.Query fault) → HasFault query.now fault }
    ensures budget { (p : Publication) → HoldsPublication snapshot.now p
        → KeepsBudget (IsWorkOf (form_text Opl) p query.now) most result }
    ensures limited { most ≡ None → result ≢ Err MirrorFault.Work }
    ensures failed { result ≢ Err MirrorFault.Device }
{
    match prove_within(alloc, snapshot, query, most) {
        Ok(proved) => Ok(proved),
        Err(fault) => Err(fault_of(fault)),
    }
}
