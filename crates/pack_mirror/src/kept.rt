//! Nodes that are kept from query to query.

ghost use Rattle.std.specs.Prelude.{◌≡◌, ◌≢◌, ◌≤◌, Err, IfErr, IfOk, IfSome, None};
ghost use Rattle.tree_node.specs.Shelves.{IsEmptySet};
ghost use Rattle.osm_forms.specs.Forms.{form_text};
ghost use Rattle.osm_forms.specs.declared.form.Form.TheVariants.{Opl};
ghost use Rattle.osm_keys.specs.Publications.{Publication};
ghost use Rattle.osm_prove.specs.Proved.{IsProofOf};
ghost use Rattle.outside_proof.specs.Budgets.{KeepsBudget};
ghost use Rattle.ql_eval.specs.Work.{WorkOfQuery};
ghost use Rattle.ql_meaning.specs.Meanings.{Means};
ghost use Rattle.ql_syntax.specs.StatementViews.{statements_of};
ghost use Rattle.outside_shelf.specs.NodeStocks.{HasKept};
ghost use Rattle.osm_gate.specs.declared.mirror_fault.MirrorFault.TheVariants.{Device};
ghost use Rattle.pack_mirror.specs.Faults.{fault_of_answer};
ghost use Rattle.pack_mirror.specs.Roots.{StandsFor};

use crate::asking::{ask_answer, ask_proof};
use crate::gained::{Gained, entries_len};
use node_pack::{PackSource, ReadAt};
use outside_proof::{AnswerAndProof, OutsideFault};
use outside_shelf::NodeStock;
use ql_syntax::Query;
use std::alloc::Global;
use tree_node::{Digest, NewNode};

/// The nodes of a pack: those that were kept of earlier queries, and the source of all others, which knows the places that it
/// has learned since it was opened. What is kept was digested, so the stock has no node under a wrong digest, and what the
/// places are worth shows when they are read.
#[derive(Drop)]
pub(crate) struct KeptNodes<F: ReadAt + Drop> {
    source: PackSource<F>,
    stock: NodeStock,
    /// What the nodes of the stock count, or more: nodes count for which memory was refused at last.
    len: u64,
    /// What stock and places may count together.
    limit: u64,
    ghost within: { len ≤ limit },
}

impl<F: ReadAt + Drop> KeptNodes<F> {
    /// Nothing is kept yet. It takes no memory yet.
    pub(crate) fn new(alloc: Global, source: PackSource<F>, limit: u64) -> KeptNodes<F> {
        KeptNodes {
            source,
            stock: NodeStock::new(alloc),
            len: 0,
            limit,
        }
    }

    /// The answer to a query under a root. What was read for it is kept, or all that was kept is dropped.
    pub(crate) fn answer(
        &mut self,
        alloc: Global,
        query: &Query<'_>,
        root: &Digest,
        most: Option<u64>,
    ) -> Result<Vec<u8>, OutsideFault>
        ensures means { (p : Publication) → StandsFor root.now p
            → IfOk result (λ answer. Means p.objects (statements_of query.now) answer.items) }
        ensures limited { most ≡ None → result ≢ Err OutsideFault.Work }
        // After a failed device no node is kept.
        ensures failed { IfErr result (λ fault. fault_of_answer fault ≡ Device
            → IsEmptySet (HasKept self.new.stock)) }
        ensures budget { (p : Publication) → StandsFor root.now p
            → KeepsBudget (WorkOfQuery (form_text Opl) p (statements_of query.now)) most result }
    {
        let room = self.limit - self.len;
        let (given, more) = ask_answer(
            alloc,
            &mut self.source,
            &self.stock,
            query,
            root,
            most,
            room,
        );
        self.keep(alloc, more);
        given
    }

    /// The answer with its proof, as [`KeptNodes::answer`] gives the answer alone.
    pub(crate) fn prove(
        &mut self,
        alloc: Global,
        query: &Query<'_>,
        root: &Digest,
        most: Option<u64>,
    ) -> Result<AnswerAndProof, OutsideFault>
        ensures proved { (p : Publication) → StandsFor root.now p
            → IfOk result (λ both. Means p.objects (statements_of query.now) both.answer.items
            × IsProofOf p (statements_of query.now) both.proof.items) }
        ensures limited { most ≡ None → result ≢ Err OutsideFault.Work }
        // After a failed device no node is kept.
        ensures failed { IfErr result (λ fault. fault_of_answer fault ≡ Device
            → IsEmptySet (HasKept self.new.stock)) }
        ensures budget { (p : Publication) → StandsFor root.now p
            → KeepsBudget (WorkOfQuery (form_text Opl) p (statements_of query.now)) most result }
    {
        let room = self.limit - self.len;
        let (given, more) = ask_proof(
            alloc,
            &mut self.source,
            &self.stock,
            query,
            root,
            most,
            room,
        );
        self.keep(alloc, more);
        given
    }

    /// Keeps these nodes too. Where there are none, or where they would be too many with the stock and the places, all is
    /// dropped.
    fn keep(&mut self, alloc: Global, more: Option<Gained>)
        ensures { more ≡ None → IsEmptySet (HasKept self.new.stock) }
    {
        let Some(more) = more else {
            self.forget(alloc);
            return;
        };
        match self.len_with(more.len) {
            Some(len) => {
                self.len = len;
                self.put(more.nodes);
            }
            None => self.forget(alloc),
        }
    }

    /// What the stock counts with so much more; none where this and the places that the source knows are more than may be kept.
    fn len_with(&self, more: u64) -> Option<u64>
        ensures { IfSome result (λ len. len ≤ self.now.limit) }
    {
        let len = self.len.saturating_add(more);
        let places = entries_len(self.source.places_len());
        if len.saturating_add(places) > self.limit {
            return None;
        }
        Some(len)
    }

    /// Puts these nodes into the stock. Where memory is refused, this one and the later ones aren't put.
    fn put(&mut self, nodes: Vec<NewNode>) {
        for node in nodes {
            if self.stock.put(node).is_err() {
                return;
            }
        }
    }

    /// Drops the stock and the places that the source has learned. Where memory is refused the places stay: they are hints, and
    /// the next query tries again if they are still too many.
    fn forget(&mut self, alloc: Global)
        ensures { IsEmptySet (HasKept self.new.stock) }
    {
        self.stock = NodeStock::new(alloc);
        self.len = 0;
        match self.source.forget(alloc) {
            Ok(()) | Err(_) => {}
        }
    }
}
