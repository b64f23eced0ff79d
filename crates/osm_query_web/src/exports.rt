//! What is exported.

ghost use Rattle.std.specs.Prelude.{◌≡◌, ◌≢◌, ◌<◌, ◌≤◌, ◌⊎◌, ◌↔◌, ℕ, List, drop, length, take};
ghost use Rattle.tree_node.specs.Digests.{digest as digest_word};
ghost use Rattle.osm_forms.specs.declared.form.Form.{Form};
ghost use Rattle.osm_keys.specs.Manifests.{manifest_bytes};
ghost use Rattle.osm_keys.specs.Publications.{IsPublication, Publication, root_of};
ghost use Rattle.osm_keys.specs.declared.manifest.Manifest.{Manifest};
ghost use Rattle.ql_syntax.specs.Queries.{HasFault};
ghost use Rattle.ql_syntax.specs.declared.fault.QlFault.{QlFault};
ghost use Rattle.osm_packs.specs.declared.not_answered.NotAnswered.TheVariants as faults;
ghost use Rattle.osm_query_web.specs.Answers.{IsAnswerOf, IsReasonInFiles, IsReasonOf, IsTableOfWanted, form_number};
ghost use Rattle.osm_query_web.specs.Pieces.{IsTable};
ghost use Rattle.osm_query_web.specs.Spans.{spans_in};
ghost use Rattle.osm_query_web.specs.ToldFaults.{nothing, told_of};

use crate::call::answer_from_pieces;
use crate::handing::tell;
use crate::stated::Stated;
use crate::told::{BAD_FORM, BAD_PIECES, BAD_ROOT, MORE, NO, NO_MEMORY, TOO_SHORT, Told, YES};
use node_pack::Place;
use std::alloc::Global;
use tree_node::Digest;

/// The answer to a query from the pieces that a page has of a pack, or which parts of the pack it has to fetch first: what
/// [`osm_packs::query`] finds, as a document in a form: 0 for OPL, 1 for JSON and 2 for XML. No mirror answers, and nothing in
/// the pack is trusted: each node is digested before it is taken.
///
/// The whole pack has `size` bytes. `table` has sixteen bytes for each piece, its start in the pack and its length, the low
/// byte first, and `bytes` has the bytes of the pieces, one after the other. The pieces rise, with at least one byte between
/// one and the next, so a page joins those that touch; none is empty, and none ends beyond the pack. The nodes that the query
/// needs may have `at_most` bytes.
///
/// With [`YES`] the document is at the front of `room`, and `len` says how many bytes it has. With [`MORE`] a table of the
/// parts of the pack that are missing is there, in order and each once, and `len` says how many bytes that has: each is one
/// that no piece has, so where the page fetches them and calls again, at some time there is another status. The rest of `room`
/// stays. With [`TOO_SHORT`] all of `room` stays, and `len` says how long a room is needed, for either. With every other
/// status `room` stays and `len` is 0; with [`NO`], `told` says why there is no answer.
///
/// What is looked at first is told: the root ([`BAD_ROOT`] where it doesn't have 32 bytes), the form ([`BAD_FORM`] where it is
/// none of the three), the pieces ([`BAD_PIECES`] where they aren't as said above), the query, and then the pack. Memory is
/// taken from `alloc`, and given back before the call ends ([`NO_MEMORY`] where it runs out): it grows with the number of
/// pieces, with the nodes that are needed and with the text.
#[unsafe(no_mangle)]
pub extern "C" fn osm_query_answer(
    alloc: Global,
    form: u32,
    query: &[u8],
    root: &[u8],
    at_most: u64,
    size: u64,
    table: &[u8],
    bytes: &[u8],
    room: &mut [u8],
    told: &mut Told,
    len: &mut u64,
) -> u32
    // The headline: whatever the pieces hold, under the root of any publication a yes says that what was handed over is the
    // document of the query's meaning over its set in this form, unless a node that the query needs and another byte string
    // have one digest.
    ensures headline { (p : Publication) (asked : Form) → IsPublication p → root.now ≡ root_of p
        → form_number asked ≡ form → result ≡ YES
        → IsAnswerOf p asked query.now (take len.new room.new) }
    // Whatever the root is of, it is the digest of a manifest then.
    ensures rooted { result ≡ YES
        → (found : Manifest) × (digest_word (manifest_bytes found) ≡ root.now) }
    // A no has a reason that is so of every file that has these pieces.
    ensures refused { result ≡ NO
        → IsReasonOf size (spans_in table.now) bytes.now query.now root.now told.new }
    // What is to be fetched is missing, so each call says something new.
    ensures more { result ≡ MORE
        → IsTableOfWanted size (spans_in table.now) query.now (take len.new room.new) }
    // A query that doesn't read is refused for that.
    ensures unreadable { (p : Publication) (fault : QlFault) → IsPublication p
        → root.now ≡ root_of p → HasFault query.now fault → form ≤ 2
        → IsTable size (length bytes.now) table.now
        → (result ≡ NO_MEMORY) ⊎ ((result ≡ NO) × (told.new ≡ told_of (faults.Query fault))) }
    // The room has what is handed over at its front, and else stays; where it is too short, it stays altogether.
    ensures handed_over { (result ≡ YES) ⊎ (result ≡ MORE)
        → (len.new ≤ length room.old) × (drop len.new room.new ≡ drop len.new room.old) }
    ensures too_short { result ≡ TOO_SHORT → (length room.old < len.new) × (room.new ≡ room.old) }
    // So long is what a longer room would have.
    ensures needed { (p : Publication) (asked : Form) → IsPublication p → root.now ≡ root_of p
        → form_number asked ≡ form → result ≡ TOO_SHORT → (due : List ℕ) × (len.new ≡ length due)
        × (IsAnswerOf p asked query.now due
        ⊎ IsTableOfWanted size (spans_in table.now) query.now due) }
    // The root is looked at first, then the form, then the pieces, and no other status comes.
    ensures bad_root { (result ≡ BAD_ROOT) ↔ (length root.now ≢ 32) }
    ensures bad_form { (result ≡ BAD_FORM) ↔ ((length root.now ≡ 32) × (2 < form)) }
    ensures bad_pieces { (result ≡ BAD_PIECES)
        ↔ ((length root.now ≡ 32) × (form ≤ 2) × (¬ IsTable size (length bytes.now) table.now)) }
    ensures statuses { result ≤ BAD_PIECES }
    // Nothing else is told or handed over.
    ensures nothing { result ≢ YES → result ≢ MORE → result ≢ TOO_SHORT
        → (len.new ≡ 0) × (room.new ≡ room.old) }
    ensures told { result ≢ NO → told.new ≡ nothing }
{
    answer_from_pieces(
        alloc, form, query, root, at_most, None, size, table, bytes, room, told, len,
    )
}

/// The answer to a query from the pieces that a page has of the files that a head names, as [`osm_query_answer`] finds it in a
/// pack. The files are read as one, in which each begins at the offset of its number times 2^48: so stand the pieces in `table`,
/// and `size` is the number of the files times 2^48.
///
/// The head states a root, the 32 bytes of `stated`, and where the record of its manifest stands: so many bytes, `manifest_len`, at
/// the offset `manifest_at` in the files as one. Nothing in it is trusted either. Where it states another root than the one that is
/// asked for, that is told, as of a pack of another root.
///
/// [`BAD_ROOT`] comes where one of the two roots doesn't have 32 bytes, before all else.
#[unsafe(no_mangle)]
pub extern "C" fn osm_query_answer_in_files(
    alloc: Global,
    form: u32,
    query: &[u8],
    root: &[u8],
    at_most: u64,
    stated: &[u8],
    manifest_at: u64,
    manifest_len: u32,
    size: u64,
    table: &[u8],
    bytes: &[u8],
    room: &mut [u8],
    told: &mut Told,
    len: &mut u64,
) -> u32
    // The headline: whatever the pieces hold, under the root of any publication a yes says that what was handed over is the
    // document of the query's meaning over its set in this form, unless a node that the query needs and another byte string
    // have one digest.
    ensures headline { (p : Publication) (asked : Form) → IsPublication p → root.now ≡ root_of p
        → form_number asked ≡ form → result ≡ YES
        → IsAnswerOf p asked query.now (take len.new room.new) }
    // Whatever the root is of, it is the digest of a manifest then.
    ensures rooted { result ≡ YES
        → (found : Manifest) × (digest_word (manifest_bytes found) ≡ root.now) }
    // A no has a reason.
    ensures refused { result ≡ NO → IsReasonInFiles stated.now query.now root.now told.new }
    // What is to be fetched is missing, so each call says something new.
    ensures more { result ≡ MORE
        → IsTableOfWanted size (spans_in table.now) query.now (take len.new room.new) }
    // A query that doesn't read is refused for that.
    ensures unreadable { (p : Publication) (fault : QlFault) → IsPublication p
        → root.now ≡ root_of p → HasFault query.now fault → length stated.now ≡ 32 → form ≤ 2
        → IsTable size (length bytes.now) table.now
        → (result ≡ NO_MEMORY) ⊎ ((result ≡ NO) × (told.new ≡ told_of (faults.Query fault))) }
    // The room has what is handed over at its front, and else stays; where it is too short, it stays altogether.
    ensures handed_over { (result ≡ YES) ⊎ (result ≡ MORE)
        → (len.new ≤ length room.old) × (drop len.new room.new ≡ drop len.new room.old) }
    ensures too_short { result ≡ TOO_SHORT → (length room.old < len.new) × (room.new ≡ room.old) }
    // So long is what a longer room would have.
    ensures needed { (p : Publication) (asked : Form) → IsPublication p → root.now ≡ root_of p
        → form_number asked ≡ form → result ≡ TOO_SHORT → (due : List ℕ) × (len.new ≡ length due)
        × (IsAnswerOf p asked query.now due
        ⊎ IsTableOfWanted size (spans_in table.now) query.now due) }
    // The roots are looked at first, then the form, then the pieces, and no other status comes.
    ensures bad_root { (result ≡ BAD_ROOT) ↔ ((length root.now ≢ 32) ⊎ (length stated.now ≢ 32)) }
    ensures bad_form { (result ≡ BAD_FORM)
        ↔ ((length root.now ≡ 32) × (length stated.now ≡ 32) × (2 < form)) }
    ensures bad_pieces { (result ≡ BAD_PIECES) ↔ ((length root.now ≡ 32) × (length stated.now ≡ 32) × (form ≤ 2)
        × (¬ IsTable size (length bytes.now) table.now)) }
    ensures statuses { result ≤ BAD_PIECES }
    // Nothing else is told or handed over.
    ensures nothing { result ≢ YES → result ≢ MORE → result ≢ TOO_SHORT
        → (len.new ≡ 0) × (room.new ≡ room.old) }
    ensures told { result ≢ NO → told.new ≡ nothing }
{
    let Some(stated_root) = Digest::from_slice(stated) else {
        return tell(BAD_ROOT, Told::nothing(), told, len);
    };
    let stated = Stated {
        root: stated_root,
        manifest: Place {
            at: manifest_at,
            len: manifest_len,
        },
    };
    answer_from_pieces(
        alloc,
        form,
        query,
        root,
        at_most,
        Some(stated),
        size,
        table,
        bytes,
        room,
        told,
        len,
    )
}
