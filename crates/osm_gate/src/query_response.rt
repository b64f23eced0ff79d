//! The response to a query.

ghost use Rattle.std.specs.Prelude.{◌≡◌, ◌++◌, IfOk, OnOk, Some, false, true};
ghost use Rattle.std.specs.String.{string_bytes};
ghost use Rattle.osm_keys.specs.Publications.{Publication};
ghost use Rattle.http_messages.specs.ResponseTexts.{response_text};
ghost use Rattle.osm_gate.specs.Responses.{ByQueryOn, checked_body, fault_text, ok_response};
ghost use Rattle.osm_gate.specs.Terms.{terms_of};
ghost use Rattle.osm_gate.specs.internal.Adding.{AddsFault, AddsResponse};

use crate::chunks::{Chunks, is_large};
use crate::endpoint::Endpoint;
use crate::mirror::Mirror;
use crate::mirror_fault::MirrorFault;
use crate::reply::Reply;
use crate::response::{write_ok, write_ok_head, write_refusal};
use http::StatusCode;
use http_messages::total_len;
use osm_prove::{Answered, Proved};
use ql_syntax::QlFault;
use std::alloc::{AllocError, Global};

/// Appends the response to a query: what its endpoint gives, why the query doesn't read, that it is too much work for the
/// budget, where there is one, or that the mirror's device failed. Out of memory it leaves what it wrote.
pub(crate) fn respond_to_query<M: Mirror>(
    alloc: Global,
    output: &mut Chunks,
    reply: Reply,
    mirror: &mut M,
    query: &[u8],
    most: Option<u64>,
) -> Result<(), AllocError>
    ensures response { (p : Publication) → M.holds mirror.old p
        → OnOk result (AddsResponse (ByQueryOn (terms_of most M.may_fail) reply p (Some query.now))
        output.old output.new) }
    ensures same { mirror.new ≡ mirror.old }
{
    match reply.endpoint {
        Endpoint::Answer => match mirror.answer_within(alloc, query, most) {
            Ok(answered) => write_answer(output, reply.closes, answered),
            Err(fault) => write_fault(alloc, output, reply.closes, fault),
        },
        Endpoint::AnswerWithProof => match mirror.prove_within(alloc, query, most) {
            Ok(proved) => write_answer_with_proof(output, reply.closes, proved),
            Err(fault) => write_fault(alloc, output, reply.closes, fault),
        },
    }
}

/// Appends the answer. A large one is moved, and not copied. Out of memory it leaves what it wrote.
fn write_answer(output: &mut Chunks, closes: bool, answered: Answered) -> Result<(), AllocError>
    ensures { OnOk result (output.new ≡ output.old
        ++ response_text (ok_response closes answered.root.0 false answered.answer.items)) }
{
    let Answered { root, answer } = answered;
    if !is_large(&answer) {
        let body = [answer.as_slice()];
        return write_ok(output, closes, &root, false, &body);
    }
    write_ok_head(output, closes, &root, false, answer.len())?;
    output.push_chunk(answer)
}

/// Appends what a client can check: the root, the length of the answer, the answer and the proof. An answer or a proof
/// that is large is moved, and not copied. Out of memory it leaves what it wrote.
fn write_answer_with_proof(
    output: &mut Chunks,
    closes: bool,
    proved: Proved,
) -> Result<(), AllocError>
    ensures { OnOk result (output.new ≡ output.old
        ++ response_text (ok_response closes proved.root.0 true
        (checked_body proved.root.0 proved.answer.items proved.proof.items))) }
{
    let Proved {
        root,
        answer,
        proof,
    } = proved;
    let length = (answer.len() as u64).to_be_bytes();
    let body = [
        root.0.as_slice(),
        length.as_slice(),
        answer.as_slice(),
        proof.as_slice(),
    ];
    if !is_large(&answer) && !is_large(&proof) {
        return write_ok(output, closes, &root, true, &body);
    }
    let Some(body_len) = total_len(&body) else {
        return Err(AllocError);
    };
    write_ok_head(output, closes, &root, true, body_len)?;
    output.push(root.0.as_slice())?;
    output.push(length.as_slice())?;
    output.push_owned(answer)?;
    output.push_owned(proof)
}

/// Appends why a query has no answer. It is refused where memory had run out already.
fn write_fault(
    alloc: Global,
    output: &mut Chunks,
    closes: bool,
    fault: MirrorFault,
) -> Result<(), AllocError>
    ensures { OnOk result (AddsFault closes fault output.old output.new) }
{
    match fault {
        MirrorFault::Query(fault) => {
            let text = fault_text(alloc, &fault)?;
            let status = StatusCode::BAD_REQUEST;
            write_refusal(output, closes, status, text.as_str())
        }
        MirrorFault::Work => {
            let status = StatusCode::SERVICE_UNAVAILABLE;
            write_refusal(output, closes, status, "too much work")
        }
        MirrorFault::Memory => Err(AllocError),
        MirrorFault::Device => {
            let status = StatusCode::INTERNAL_SERVER_ERROR;
            write_refusal(output, closes, status, "device")
        }
    }
}

/// The code of the cause, and the place.
fn fault_text(alloc: Global, fault: &QlFault) -> Result<String, AllocError>
    ensures { IfOk result (λ text. string_bytes text ≡ fault_text fault.now) }
{
    let cause = fault.cause;
    let byte = fault.byte;
    format!(in alloc; "{cause} byte {byte}")
}
