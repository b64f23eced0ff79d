//! The answer to a query from the files of a head.

ghost use Rattle.std.specs.Prelude.{◌≡◌, ◌≢◌, Err, IfErr, IfOk, None, OnOk, true};
ghost use Rattle.std.specs.Io.KnownBytes.{Keeps};
ghost use Rattle.tree_node.specs.Digests.{digest as digest_word};
ghost use Rattle.osm_forms.specs.Forms.{form_text};
ghost use Rattle.osm_keys.specs.Manifests.{manifest_bytes};
ghost use Rattle.osm_keys.specs.Publications.{IsPublication, Publication, root_of};
ghost use Rattle.osm_keys.specs.declared.manifest.Manifest.{Manifest};
ghost use Rattle.ql_eval.specs.Work.{IsNodeOf};
ghost use Rattle.osm_prove.specs.Budgets.{IsWorkOf};
ghost use Rattle.osm_check.specs.Verdicts.{IsReadable};
ghost use Rattle.outside_shelf.specs.SecondPreimages.{HaveSecondPreimage};
ghost use Rattle.osm_packs.specs.Querying.{ExplainsInFiles, HasAnswered, HasBegun, IsRight, KeepsBudget};

use crate::answer_text::answer_text;
use crate::limits::Limits;
use crate::not_answered::NotAnswered;
use crate::query_command::{fault_of_pack, fault_of_query};
use node_pack::{PackSource, Place, ReadAt};
use osm_commands::{FlushingWriter, write_document};
use osm_forms::Form;
use ql_syntax::parse;
use std::alloc::Global;
use tree_node::Digest;

/// Finds the answer to a query in files that are read as one, as [`query()`](crate::query()) does in a pack: those that a head
/// names. The head states a root, and where the record of its manifest stands.
///
/// # Errors
///
/// Those of `query`: `OtherRoot` where the head states another root, and `Pack` only with `Device`, where the files can't be opened.
pub fn query_files<F: ReadAt + Drop, W: FlushingWriter>(
    alloc: Global,
    form: Form,
    root: &Digest,
    query: &[u8],
    limits: Limits,
    files: F,
    stated: &Digest,
    manifest: Place,
    output: &mut W,
) -> Result<(), NotAnswered>
    // The headline: whatever the files hold, under the root of any publication the output has gained the document of the
    // query's meaning over its set, unless a node that the query needs and another byte string have one
    // digest.
    ensures right { (p : Publication) → IsPublication p → root.now.0 ≡ root_of p
        → OnOk result
        (HasAnswered p form query.now (W.contents output.old) (W.contents output.new)) }
    // Where the output fails, it has a beginning of it.
    ensures begun { (p : Publication) → IsPublication p → root.now.0 ≡ root_of p
        → result ≡ Err NotAnswered.Device
        → HasBegun p form query.now (W.contents output.old) (W.contents output.new) }
    // Whatever the root is of, it is the digest of a manifest where there is an answer.
    ensures rooted { OnOk result
        ((found : Manifest) × (digest_word (manifest_bytes found) ≡ root.now.0)) }
    // The budget is kept, unless a node of the publication has a second preimage. Without one no work is too much.
    ensures budget { (p : Publication) → IsPublication p → root.now.0 ≡ root_of p
        → ¬ HaveSecondPreimage (IsNodeOf p)
        → KeepsBudget (IsWorkOf (form_text form) p query.now) limits.work result }
    ensures limited { limits.work ≡ None → result ≢ Err NotAnswered.Work }
    // Which fault it is.
    ensures refused { IfErr result (ExplainsInFiles query.now root.now.0 stated.now.0) }
    // There is an answer only under the root that is stated.
    ensures same_root { OnOk result (stated.now.0 ≡ root.now.0) }
    // Nothing is held back.
    ensures flushed { OnOk result (W.is_flushed output.new ≡ true) }
    // Nothing is written but where the output fails.
    ensures nothing { IfErr result (λ fault. fault ≢ NotAnswered.Device
        → Keeps (W.contents output.old) (W.contents output.new)) }
{
    let text = find_text_in_files(alloc, form, root, query, limits, files, stated, manifest)?;
    match write_document(output, form, &text) {
        Ok(()) => Ok(()),
        Err(_) => Err(NotAnswered::Device),
    }
}

/// The text that the query's objects have in the form.
fn find_text_in_files<F: ReadAt + Drop>(
    alloc: Global,
    form: Form,
    root: &Digest,
    query: &[u8],
    limits: Limits,
    files: F,
    stated: &Digest,
    manifest: Place,
) -> Result<Vec<u8>, NotAnswered>
    ensures right { (p : Publication) → IsPublication p → root.now.0 ≡ root_of p
        → IfOk result (λ text. IsRight p form query.now text.items) }
    ensures rooted { IfOk result
        (λ _. (found : Manifest) × (digest_word (manifest_bytes found) ≡ root.now.0)) }
    ensures budget { (p : Publication) → IsPublication p → root.now.0 ≡ root_of p
        → ¬ HaveSecondPreimage (IsNodeOf p)
        → KeepsBudget (IsWorkOf (form_text form) p query.now) limits.work result }
    ensures limited { limits.work ≡ None → result ≢ Err NotAnswered.Work }
    ensures refused { IfErr result (ExplainsInFiles query.now root.now.0 stated.now.0) }
    ensures no_device { IfErr result (λ fault. fault ≢ NotAnswered.Device) }
    ensures opened { IfOk result (λ _. IsReadable query.now × (stated.now.0 ≡ root.now.0)) }
{
    let query = match parse(alloc, query) {
        Ok(query) => query,
        Err(fault) => return Err(fault_of_query(fault)),
    };
    if *stated != *root {
        return Err(NotAnswered::OtherRoot);
    }
    let source = match PackSource::open_at(alloc, files, *root, manifest) {
        Ok(source) => source,
        Err(fault) => return Err(fault_of_pack(fault)),
    };
    answer_text(alloc, form, root, &query, limits, source)
}
