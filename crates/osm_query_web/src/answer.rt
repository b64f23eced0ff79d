//! Answers from pieces of a pack, or of the files of a head.

ghost use Rattle.std.specs.Prelude.{◌≡◌, IfErr, IfOk, IfSome, List, OnOk, Some};
ghost use Rattle.tree_node.specs.Digests.{digest as digest_word};
ghost use Rattle.osm_keys.specs.Manifests.{manifest_bytes};
ghost use Rattle.osm_keys.specs.Publications.{IsPublication, Publication, root_of};
ghost use Rattle.osm_keys.specs.declared.manifest.Manifest.{Manifest};
ghost use Rattle.osm_packs.specs.Querying.{HasAnswered};
ghost use Rattle.osm_query_web.specs.Answers.{IsAnswerOf, IsTableOfWanted};
ghost use Rattle.osm_query_web.specs.declared.span.Span.{Span};
ghost use Rattle.osm_query_web.specs.internal.CallResults.{ComesOf, ExplainsBy, IfDocument, IfMissing, IfRefused, IsAfterRead, IsExplained, ListsWanted};
ghost use Rattle.osm_query_web.specs.internal.Reading.{AreOf, ArePiecesOf};

use crate::call_result::CallResult;
use crate::missing::{table_of, wanted_of};
use crate::pieces::Pieces;
use crate::reader::PieceReader;
use crate::span::Span;
use crate::stated::Stated;
use node_pack::PackFault;
use osm_forms::Form;
use osm_packs::{Limits, NotAnswered, query_files};
use outside_shelf::Refused;
use std::alloc::{AllocError, Global};
use std::cell::Cell;
use tree_node::Digest;

/// Finds the answer to a query in the pieces of a pack, or of the files of which this is stated, as the command `query` does, and
/// where they don't suffice, what else of them is needed, as far as that is known. The query may need so many bytes of nodes.
pub(crate) fn find_answer(
    alloc: Global,
    form: Form,
    root: &Digest,
    query: &[u8],
    at_most: u64,
    stated: Option<Stated>,
    pieces: &Pieces<'_>,
) -> CallResult
    ensures right { (spans : List Span) (p : Publication) → AreOf spans pieces.now
        → IsPublication p → root.now.0 ≡ root_of p
        → IfDocument result (IsAnswerOf p form query.now) }
    ensures rooted { (spans : List Span) → AreOf spans pieces.now → IfDocument result
        (λ _. (found : Manifest) × (digest_word (manifest_bytes found) ≡ root.now.0)) }
    ensures missing { (spans : List Span) → AreOf spans pieces.now
        → IfMissing result (IsTableOfWanted pieces.now.size spans query.now) }
    ensures refused { (spans : List Span) → AreOf spans pieces.now → IfRefused result
        (IsExplained stated (ArePiecesOf pieces.now) query.now root.now.0) }
{
    let missed = Cell::new(Vec::new(alloc));
    let reader = PieceReader {
        alloc,
        pieces: &*pieces,
        missed: &missed,
    };
    let limits = Limits {
        bytes: Some(at_most),
        work: None,
    };
    let mut document = Vec::new(alloc);
    match read_answer(
        alloc,
        form,
        root,
        query,
        limits,
        stated,
        reader,
        &mut document,
    ) {
        Ok(()) => CallResult::Document(document),
        Err(fault) => call_result_of(alloc, fault, pieces, missed.into_inner().as_slice()),
    }
}

/// Finds the answer to a query in a pack, or in the files of which this is stated, and appends its document.
fn read_answer(
    alloc: Global,
    form: Form,
    root: &Digest,
    query: &[u8],
    limits: Limits,
    stated: Option<Stated>,
    reader: PieceReader<'_>,
    document: &mut Vec<u8>,
) -> Result<(), NotAnswered>
    ensures right { (p : Publication) → IsPublication p → root.now.0 ≡ root_of p
        → OnOk result (HasAnswered p form query.now (Some document.old.items) (Some document.new.items)) }
    ensures rooted { OnOk result ((found : Manifest) × (digest_word (manifest_bytes found) ≡ root.now.0)) }
    ensures refused { IfErr result (ExplainsBy stated (ArePiecesOf reader.entry.pieces.now) query.now root.now.0) }
{
    match stated {
        None => osm_packs::query(alloc, form, root, query, limits, reader, document),
        Some(
            Stated {
                root: stated,
                manifest,
            },
        ) => query_files(
            alloc, form, root, query, limits, reader, &stated, manifest, document,
        ),
    }
}

/// What comes of a fault, where these spans were noted.
fn call_result_of(
    alloc: Global,
    fault: NotAnswered,
    pieces: &Pieces<'_>,
    noted: &[Span],
) -> CallResult
    ensures { (spans : List Span) → AreOf spans pieces.now
        → ComesOf pieces.now.size spans fault result }
{
    match fault {
        NotAnswered::Memory | NotAnswered::Device => CallResult::NoMemory,
        NotAnswered::Pack(PackFault::Device) | NotAnswered::Node(Refused::Device) => after_read(
            alloc, fault, pieces, noted,
        ),
        _ => CallResult::Refused(fault),
    }
}

/// What comes of a read that failed.
fn after_read(alloc: Global, fault: NotAnswered, pieces: &Pieces<'_>, noted: &[Span]) -> CallResult
    ensures { (spans : List Span) → AreOf spans pieces.now
        → IsAfterRead pieces.now.size spans fault result }
{
    match list_missing(alloc, pieces, noted) {
        Ok(Some(table)) => CallResult::Missing(table),
        Ok(None) => CallResult::Refused(fault),
        Err(_) => CallResult::NoMemory,
    }
}

/// The table of those of the noted spans that are to be fetched; none where there are none.
fn list_missing(
    alloc: Global,
    pieces: &Pieces<'_>,
    noted: &[Span],
) -> Result<Option<Vec<u8>>, AllocError>
    ensures { (spans : List Span) → AreOf spans pieces.now
        → IfOk result (λ listed. IfSome listed
        (λ table. ListsWanted pieces.now.size spans table.items)) }
{
    let wanted = wanted_of(alloc, pieces, noted)?;
    if wanted.is_empty() {
        return Ok(None);
    }
    Ok(Some(table_of(alloc, &wanted)?))
}
