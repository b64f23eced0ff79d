//! The teller, exported, and how its document is handed over.

ghost use Rattle.std.specs.Prelude.{◌≡◌, ◌≢◌, ◌++◌, ◌+◌, ◌<◌, ◌≤◌, ◌⊎◌, ◌↔◌, ℕ, List, MatchOption, drop, length, take};
ghost use Rattle.tree_node.specs.Outcomes.{Clash};
ghost use Rattle.osm_forms.specs.Documents.{document_in};
ghost use Rattle.osm_forms.specs.declared.form.Form.{Form};
ghost use Rattle.osm_keys.specs.Publications.{IsNodeIn, IsPublication, Publication, root_of};
ghost use Rattle.osm_check.specs.Telling.{IsProvedIn};
ghost use Rattle.osm_check.specs.Verdicts.{StandsIn, TellsOf};
ghost use Rattle.osm_check.specs.declared.verdict.Verdict.TheVariants as verdicts;
ghost use Rattle.osm_check.specs.declared.why.Why.{Why};
ghost use Rattle.osm_check_web.specs.ToldDocuments.{IsAnswered, IsHandedOver, IsProvedDocument, IsToldAlone, IsToldRight, form_number, handed};
ghost use Rattle.osm_check_web.specs.ToldVerdicts.{nothing, told_of};

use crate::told::{
    BAD_FORM, BAD_ROOT, NO, NO_MEMORY, TOO_SHORT, Told, YES, told_nothing, told_of_verdict,
};
use osm_check::{Digest, Verdict, tell};
use osm_forms::Form;
use std::alloc::Global;

/// The document of the answer that a query and a proof show, in a form: 0 for OPL, 1 for JSON and 2 for XML. It is what
/// [`osm_check::tell`] tells, with the header and the trailer of its form around it.
///
/// The document goes to the front of `room`, and `size` says how many bytes it has: the status is [`YES`], and the rest of
/// `room` stays as it was. A room that is shorter than that stays as it was altogether: the status is [`TOO_SHORT`], and
/// `size` says how long a room is needed. Where there is no answer, the status is [`NO`], and `told` has the reason, as
/// [`osm_check_verdict`](crate::osm_check_verdict) tells it.
///
/// `root` has 32 bytes, or the status is [`BAD_ROOT`]; `form` is one of the three, or it is [`BAD_FORM`]; nothing is
/// assumed of `query` and `proof`. With every status but [`YES`] and [`TOO_SHORT`], `size` is 0 and `room` stays as it was.
///
/// Memory is taken from `alloc`, and given back before the call ends: it grows with the number of the proof's nodes and
/// with the text ([`NO_MEMORY`] where it runs out).
#[unsafe(no_mangle)]
pub extern "C" fn osm_check_tell(
    alloc: Global,
    form: u32,
    query: &[u8],
    root: &[u8],
    proof: &[u8],
    room: &mut [u8],
    told: &mut Told,
    size: &mut u64,
) -> u32
    // The headline: under the root of any publication, a yes says that what was handed over is the document of the
    // query's meaning over its set in this form, and the proof the one proof of the query, unless a node of the
    // publication and a different one in the proof have the same digest.
    ensures headline { (p : Publication) (asked : Form) → IsPublication p → root.now ≡ root_of p
        → form_number asked ≡ form → result ≡ YES
        → IsProvedDocument p query.now asked proof.now (take size.new room.new)
        ⊎ Clash (IsNodeIn p) (StandsIn proof.now) }
    // From the one proof of the query the document of its meaning is handed over, unless memory runs out.
    ensures honest { (p : Publication) (asked : Form) (text : List ℕ) → IsPublication p
        → root.now ≡ root_of p → form_number asked ≡ form
        → IsProvedIn p query.now asked text proof.now → (result ≡ NO_MEMORY)
        ⊎ IsHandedOver (handed result told.new size.new room.old room.new)
        (document_in asked text) }
    // What is told and handed over is right: a reason is the one of the verdict that is owed,
    ensures told { (asked : Form) → form_number asked ≡ form
        → (result ≡ YES) ⊎ ((result ≡ NO) ⊎ (result ≡ TOO_SHORT))
        → IsToldRight query.now root.now asked proof.now
        (handed result told.new size.new room.old room.new) }
    // and under the root of a publication the reason that is owed is told, with the same exceptions.
    ensures only { (p : Publication) (asked : Form) (why : Why) → IsPublication p
        → root.now ≡ root_of p → form_number asked ≡ form
        → ((answer : List ℕ) → TellsOf p query.now answer proof.now (verdicts.No why))
        → (result ≡ NO_MEMORY) ⊎ (((result ≡ NO) × (told.new ≡ told_of (verdicts.No why)))
        ⊎ Clash (IsNodeIn p) (StandsIn proof.now)) }
    // The root is looked at first, then the form, and no other status comes; without an answer nothing is told.
    ensures bad_root { (result ≡ BAD_ROOT) ↔ (length root.now ≢ 32) }
    ensures bad_form { (result ≡ BAD_FORM) ↔ ((length root.now ≡ 32) × (2 < form)) }
    ensures statuses { result ≤ TOO_SHORT }
    ensures nothing { NO_MEMORY ≤ result → result ≤ BAD_FORM → IsToldAlone
        (handed result told.new size.new room.old room.new) nothing }
{
    let Some(root) = Digest::from_slice(root) else {
        return without_answer(BAD_ROOT, told, size);
    };
    let Some(form) = form_of(form) else {
        return without_answer(BAD_FORM, told, size);
    };
    match tell(alloc, form, query, &root, proof) {
        Ok(answer) => hand_over(form, &answer, room, told, size),
        Err(_) => without_answer(NO_MEMORY, told, size),
    }
}

/// The form of a number.
fn form_of(number: u32) -> Option<Form>
    ensures { MatchOption result (2 < number) (λ form. form_number form ≡ number) }
{
    match number {
        0 => Some(Form::Opl),
        1 => Some(Form::Json),
        2 => Some(Form::Xml),
        _ => None,
    }
}

/// Tells nothing beside this status, which it gives back.
fn without_answer(status: u32, told: &mut Told, size: &mut u64) -> u32
    ensures status { result ≡ status }
    ensures told { told.new ≡ nothing }
    ensures size { size.new ≡ 0 }
{
    *told = told_nothing();
    *size = 0;
    status
}

/// Tells the teller's answer in numbers, and hands its document over.
fn hand_over(
    form: Form,
    answer: &osm_check::Told,
    room: &mut [u8],
    told: &mut Told,
    size: &mut u64,
) -> u32
    ensures { IsAnswered form (handed result told.new size.new room.old room.new) answer.now }
{
    match answer {
        osm_check::Told::Answer { text, report } => {
            *told = told_of_verdict(Verdict::Yes(*report));
            *size = form.document_len(text) as u64;
            put_document(form, text, room)
        }
        osm_check::Told::No(why) => {
            *told = told_of_verdict(Verdict::No(*why));
            *size = 0;
            NO
        }
    }
}

/// Puts the document around a text at the front of a room, if it is long enough for that.
fn put_document(form: Form, text: &[u8], room: &mut [u8]) -> u32
    ensures fits { length (document_in form text.now) ≤ length room.old → (result ≡ YES)
        × (room.new ≡ document_in form text.now ++ drop (length (document_in form text.now)) room.old) }
    ensures too_short { length room.old < length (document_in form text.now)
        → (result ≡ TOO_SHORT) × (room.new ≡ room.old) }
{
    if room.len() < form.document_len(text) {
        return TOO_SHORT;
    }
    let parts = form.document_parts(text);
    put(parts.header, room, 0);
    put(parts.body, room, parts.header.len());
    put(parts.trailer, room, parts.header.len() + parts.body.len());
    YES
}

/// Puts a part into a room at this place.
fn put(part: &[u8], room: &mut [u8], place: usize)
    requires { place + length part.now ≤ length room.old }
    ensures { room.new ≡ take place room.old
        ++ (part.now ++ drop (place + length part.now) room.old) }
{
    room[place..place + part.len()].copy_from_slice(part);
}
