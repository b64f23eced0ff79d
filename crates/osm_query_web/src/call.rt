//! A call, whichever export it comes by.

ghost use Rattle.std.specs.Prelude.{◌≡◌, ◌≢◌, ◌<◌, ◌≤◌, ◌⊎◌, ◌↔◌, ℕ, List, MatchOption, drop, length, take};
ghost use Rattle.tree_node.specs.Digests.{digest as digest_word};
ghost use Rattle.osm_forms.specs.declared.form.Form.{Form};
ghost use Rattle.osm_keys.specs.Manifests.{manifest_bytes};
ghost use Rattle.osm_keys.specs.Publications.{IsPublication, Publication, root_of};
ghost use Rattle.osm_keys.specs.declared.manifest.Manifest.{Manifest};
ghost use Rattle.ql_syntax.specs.Queries.{HasFault};
ghost use Rattle.ql_syntax.specs.declared.fault.QlFault.{QlFault};
ghost use Rattle.osm_packs.specs.declared.not_answered.NotAnswered.TheVariants as faults;
ghost use Rattle.osm_query_web.specs.Answers.{IsAnswerOf, IsTableOfWanted, form_number};
ghost use Rattle.osm_query_web.specs.Pieces.{IsTable};
ghost use Rattle.osm_query_web.specs.Spans.{spans_in};
ghost use Rattle.osm_query_web.specs.ToldFaults.{nothing, told_of};
ghost use Rattle.osm_query_web.specs.internal.CallResults.{IsReasonBy};

use crate::answer::find_answer;
use crate::handing::{hand_over, tell};
use crate::pieces::{NotRead, Pieces};
use crate::stated::Stated;
use crate::told::{BAD_FORM, BAD_PIECES, BAD_ROOT, MORE, NO, NO_MEMORY, TOO_SHORT, Told, YES};
use osm_forms::Form;
use std::alloc::Global;
use tree_node::Digest;

/// The answer from the pieces of a pack, or of the files of which this is stated, or which parts of them are missing. The exports
/// say what is handed over and told.
pub(crate) fn answer_from_pieces(
    alloc: Global,
    form: u32,
    query: &[u8],
    root: &[u8],
    at_most: u64,
    stated: Option<Stated>,
    size: u64,
    table: &[u8],
    bytes: &[u8],
    room: &mut [u8],
    told: &mut Told,
    len: &mut u64,
) -> u32
    ensures headline { (p : Publication) (asked : Form) → IsPublication p → root.now ≡ root_of p
        → form_number asked ≡ form → result ≡ YES
        → IsAnswerOf p asked query.now (take len.new room.new) }
    ensures rooted { result ≡ YES
        → (found : Manifest) × (digest_word (manifest_bytes found) ≡ root.now) }
    ensures refused { result ≡ NO
        → IsReasonBy stated size (spans_in table.now) bytes.now query.now root.now told.new }
    ensures more { result ≡ MORE
        → IsTableOfWanted size (spans_in table.now) query.now (take len.new room.new) }
    ensures unreadable { (p : Publication) (fault : QlFault) → IsPublication p
        → root.now ≡ root_of p → HasFault query.now fault → form ≤ 2
        → IsTable size (length bytes.now) table.now
        → (result ≡ NO_MEMORY) ⊎ ((result ≡ NO) × (told.new ≡ told_of (faults.Query fault))) }
    ensures handed_over { (result ≡ YES) ⊎ (result ≡ MORE)
        → (len.new ≤ length room.old) × (drop len.new room.new ≡ drop len.new room.old) }
    ensures too_short { result ≡ TOO_SHORT → (length room.old < len.new) × (room.new ≡ room.old) }
    ensures needed { (p : Publication) (asked : Form) → IsPublication p → root.now ≡ root_of p
        → form_number asked ≡ form → result ≡ TOO_SHORT → (due : List ℕ) × (len.new ≡ length due)
        × (IsAnswerOf p asked query.now due
        ⊎ IsTableOfWanted size (spans_in table.now) query.now due) }
    ensures bad_root { (result ≡ BAD_ROOT) ↔ (length root.now ≢ 32) }
    ensures bad_form { (result ≡ BAD_FORM) ↔ ((length root.now ≡ 32) × (2 < form)) }
    ensures bad_pieces { (result ≡ BAD_PIECES)
        ↔ ((length root.now ≡ 32) × (form ≤ 2) × (¬ IsTable size (length bytes.now) table.now)) }
    ensures statuses { result ≤ BAD_PIECES }
    ensures nothing { result ≢ YES → result ≢ MORE → result ≢ TOO_SHORT
        → (len.new ≡ 0) × (room.new ≡ room.old) }
    ensures told { result ≢ NO → told.new ≡ nothing }
{
    let Some(root) = Digest::from_slice(root) else {
        return tell(BAD_ROOT, Told::nothing(), told, len);
    };
    let Some(form) = form_of(form) else {
        return tell(BAD_FORM, Told::nothing(), told, len);
    };
    match Pieces::read(alloc, size, table, bytes) {
        Ok(pieces) => {
            let outcome = find_answer(alloc, form, &root, query, at_most, stated, &pieces);
            hand_over(&outcome, room, told, len)
        }
        Err(NotRead::Malformed) => tell(BAD_PIECES, Told::nothing(), told, len),
        Err(NotRead::Memory) => tell(NO_MEMORY, Told::nothing(), told, len),
    }
}

/// The form of a number.
fn form_of(number: u32) -> Option<Form>
    ensures { MatchOption result (2 < number) (λ form. form_number form ≡ number) }
{
    match number {
        0 => Some(Form::Opl),
        1 => Some(Form::Json),
        2 => Some(Form::Xml),
        _ => None,
    }
}
