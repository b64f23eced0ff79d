//! The command `query ROOT PACK QUERY`.

ghost use Rattle.std.specs.Prelude.{◌≡◌, ◌≢◌, ℕ, Err, IfErr, IfOk, List, None, OnOk, true};
ghost use Rattle.std.specs.Io.KnownBytes.{Keeps};
ghost use Rattle.tree_node.specs.Digests.{digest as digest_word};
ghost use Rattle.osm_forms.specs.Forms.{form_text};
ghost use Rattle.osm_keys.specs.Manifests.{manifest_bytes};
ghost use Rattle.osm_keys.specs.Publications.{IsPublication, Publication, root_of};
ghost use Rattle.osm_keys.specs.declared.manifest.Manifest.{Manifest};
ghost use Rattle.ql_eval.specs.Work.{IsNodeOf};
ghost use Rattle.osm_prove.specs.Budgets.{IsWorkOf};
ghost use Rattle.osm_check.specs.Verdicts.{IsReadable};
ghost use Rattle.outside_shelf.specs.SecondPreimages.{HaveSecondPreimage};
ghost use Rattle.osm_packs.specs.Querying.{Explains, HasAnswered, HasBegun, HasRoot, IsRight, KeepsBudget};
ghost use Rattle.osm_packs.specs.internal.Faults.{fault_of_pack, fault_of_query};

use crate::answer_text::answer_text;
use crate::limits::Limits;
use crate::not_answered::NotAnswered;
use node_pack::{PackFault, PackSource, ReadAt};
use osm_commands::{FlushingWriter, write_document};
use osm_forms::Form;
use ql_syntax::{QlCause, QlFault, parse};
use std::alloc::Global;
use tree_node::Digest;

/// Finds the answer to a query in a pack, and writes it in this form: the document of the query's meaning, which in OPL is
/// the objects' lines and nothing else. Nothing is asked of anybody, and nothing in the pack is trusted: each node is
/// digested before it is taken. What the settings of the query ask for doesn't matter.
///
/// Of the pack are read the header and the nodes that the query needs, each of them once, up to the limits. The memory is
/// that of these nodes and of the answer, however large the pack is.
///
/// # Errors
///
/// `Query` where the query doesn't read: the pack isn't opened. `Pack` with why the file isn't a pack, or its device failed.
/// `OtherRoot` where the pack is of another root. `Node` with why the pack gave no node: `Absent` and `Other` where it isn't
/// what its header says, `TooMany` where the query needs more bytes than the limit. `Evaluation` where the root doesn't stand
/// for a set of objects. `Work` where the query passes the budget. `Memory` where an allocation is refused. Nothing is written
/// then. `Device` where the output fails, or takes nothing: a beginning of the document is written then.
pub fn query<F: ReadAt + Drop, W: FlushingWriter>(
    alloc: Global,
    form: Form,
    root: &Digest,
    query: &[u8],
    limits: Limits,
    pack: F,
    output: &mut W,
) -> Result<(), NotAnswered>
    // The headline: whatever the file holds, under the root of any publication the output has gained the document of the
    // query's meaning over its set, unless a node that the query needs and another byte string have one
    // digest.
    ensures right { (p : Publication) → IsPublication p → root.now.0 ≡ root_of p
        → OnOk result
        (HasAnswered p form query.now (W.contents output.old) (W.contents output.new)) }
    // Where the output fails, it has a beginning of it.
    ensures begun { (p : Publication) → IsPublication p → root.now.0 ≡ root_of p
        → result ≡ Err NotAnswered.Device
        → HasBegun p form query.now (W.contents output.old) (W.contents output.new) }
    // Whatever the root is of, it is the digest of a manifest where there is an answer.
    ensures rooted { OnOk result
        ((found : Manifest) × (digest_word (manifest_bytes found) ≡ root.now.0)) }
    // The budget is kept, unless a node of the publication has a second preimage. Without one no work is too much.
    ensures budget { (p : Publication) → IsPublication p → root.now.0 ≡ root_of p
        → ¬ HaveSecondPreimage (IsNodeOf p)
        → KeepsBudget (IsWorkOf (form_text form) p query.now) limits.work result }
    ensures limited { limits.work ≡ None → result ≢ Err NotAnswered.Work }
    // Which fault it is. There is an answer only in a file of this root.
    ensures refused { IfErr result (Explains (F.reads pack) query.now root.now.0) }
    ensures opened { OnOk result (HasRoot (F.reads pack) root.now.0) }
    // Nothing is held back.
    ensures flushed { OnOk result (W.is_flushed output.new ≡ true) }
    // Nothing is written but where the output fails.
    ensures nothing { IfErr result (λ fault. fault ≢ NotAnswered.Device
        → Keeps (W.contents output.old) (W.contents output.new)) }
{
    let text = find_text(alloc, form, root, query, limits, pack)?;
    match write_document(output, form, &text) {
        Ok(()) => Ok(()),
        Err(_) => Err(NotAnswered::Device),
    }
}

/// The text that the query's objects have in the form.
fn find_text<F: ReadAt + Drop>(
    alloc: Global,
    form: Form,
    root: &Digest,
    query: &[u8],
    limits: Limits,
    pack: F,
) -> Result<Vec<u8>, NotAnswered>
    ensures right { (p : Publication) → IsPublication p → root.now.0 ≡ root_of p
        → IfOk result (λ text. IsRight p form query.now text.items) }
    ensures rooted { IfOk result
        (λ _. (found : Manifest) × (digest_word (manifest_bytes found) ≡ root.now.0)) }
    ensures budget { (p : Publication) → IsPublication p → root.now.0 ≡ root_of p
        → ¬ HaveSecondPreimage (IsNodeOf p)
        → KeepsBudget (IsWorkOf (form_text form) p query.now) limits.work result }
    ensures limited { limits.work ≡ None → result ≢ Err NotAnswered.Work }
    ensures refused { IfErr result (Explains (F.reads pack) query.now root.now.0) }
    ensures no_device { IfErr result (λ fault. fault ≢ NotAnswered.Device) }
    ensures opened { IfOk result (λ _. IsReadable query.now × HasRoot (F.reads pack) root.now.0) }
{
    let query = match parse(alloc, query) {
        Ok(query) => query,
        Err(fault) => return Err(fault_of_query(fault)),
    };
    let source = match PackSource::open(alloc, pack) {
        Ok(source) => source,
        Err(fault) => return Err(fault_of_pack(fault)),
    };
    if source.root() != *root {
        return Err(NotAnswered::OtherRoot);
    }
    answer_text(alloc, form, root, &query, limits, source)
}

/// What a query that doesn't read is to the command.
pub(crate) fn fault_of_query(fault: QlFault) -> NotAnswered
    ensures { result ≡ fault_of_query fault }
{
    match fault.cause {
        QlCause::Memory => NotAnswered::Memory,
        _ => NotAnswered::Query(fault),
    }
}

/// What a file that isn't opened is to the command.
pub(crate) fn fault_of_pack(fault: PackFault) -> NotAnswered
    ensures { result ≡ fault_of_pack fault }
{
    match fault {
        PackFault::Memory => NotAnswered::Memory,
        _ => NotAnswered::Pack(fault),
    }
}
