//! What comes of a client's bytes.

ghost use Rattle.std.specs.Prelude.{◌≡◌, ◌≢◌, IfOk, None, false, take};
ghost use Rattle.http_messages.specs.Decisions.{asked_of};
ghost use Rattle.http_messages.specs.Forms.{query_of};
ghost use Rattle.http_messages.specs.HeadEnds.{begins_with_break, head_length};
ghost use Rattle.http_messages.specs.Targets.{path_of};
ghost use Rattle.http_messages.specs.declared.limits.TheConstants.{HEAD_LIMIT};
ghost use Rattle.osm_relay.specs.Errands.{answer_to, at_interpreter, at_path, at_status, by_query, not_allowed, unmet};
ghost use Rattle.osm_relay.specs.MirrorTexts.{fault_text};
ghost use Rattle.osm_relay.specs.Pages.{error_response};
ghost use Rattle.http_messages.specs.ResponseTexts.{response_text};
ghost use Rattle.osm_relay.specs.internal.Finding.{IsFound, Meets};

use crate::fault_texts::fault_text;
use crate::page::{error_response, not_allowed_response};
use crate::question::{Question, form_for};
use crate::slots::slots_response;
use http::StatusCode;
use http_messages::{
    Decision, Method, QuerySource, Request, first_request, method_of, query_of, split_target,
};
use ql_syntax::{QlCause, QlFault, asked_format, parse};
use std::alloc::{AllocError, Global};

/// What comes of the bytes of a client.
pub(crate) enum Found {
    /// Its request isn't complete. No request is as long as there are fewer bytes than this; 0 where its head isn't
    /// complete.
    Open(usize),
    /// This response, at once.
    Respond(Vec<u8>),
    /// A mirror is to be asked this.
    Ask(Question),
}

/// What comes of the first request of these bytes. The first `scanned` of them are known to hold no complete head. Refused
/// only where memory runs out.
pub(crate) fn find(alloc: Global, bytes: &[u8], scanned: usize) -> Result<Found, AllocError>
    requires begins { begins_with_break bytes.now ≡ false }
    requires scanned { head_length (take scanned (take HEAD_LIMIT bytes.now)) ≡ None }
    ensures { IfOk result (IsFound bytes.now) }
{
    match first_request(bytes, scanned) {
        Decision::HeadOpen => Ok(Found::Open(0)),
        Decision::BodyOpen { needed } => Ok(Found::Open(needed)),
        Decision::Refused { refusal, used: _ } => {
            refuse(alloc, refusal.status(), refusal.text())
        }
        Decision::Complete { request, used: _ } => meet(alloc, &request),
    }
}

/// A refusal that says this.
fn refuse(alloc: Global, status: StatusCode, text: &str) -> Result<Found, AllocError>
    ensures { IfOk result (Meets (unmet status text.now)) }
{
    Ok(Found::Respond(error_response(alloc, status, text.as_bytes())?))
}

fn refuse_method(alloc: Global, methods: &str) -> Result<Found, AllocError>
    ensures { IfOk result (Meets (not_allowed methods.now)) }
{
    Ok(Found::Respond(not_allowed_response(alloc, methods)?))
}

/// What comes of a complete request.
fn meet(alloc: Global, request: &Request<'_>) -> Result<Found, AllocError>
    ensures { IfOk result (Meets (at_path (asked_of request.now) (path_of request.now.target.now))) }
{
    let method = method_of(request.method);
    let (path, _) = split_target(request.target);
    if path == b"/api/interpreter".as_slice() {
        return meet_query(alloc, request, method);
    }
    if path == b"/api/status".as_slice() {
        return meet_status(alloc, method);
    }
    refuse(alloc, StatusCode::NOT_FOUND, "not found")
}

fn meet_status(alloc: Global, method: Method) -> Result<Found, AllocError>
    ensures { IfOk result (Meets (at_status method)) }
{
    match method {
        Method::Get => Ok(Found::Respond(slots_response(alloc)?)),
        Method::Post | Method::Other => refuse_method(alloc, "GET"),
    }
}

fn meet_query(alloc: Global, request: &Request<'_>, method: Method) -> Result<Found, AllocError>
    ensures { IfOk result (Meets (at_interpreter (asked_of request.now) method)) }
{
    match method {
        Method::Get => meet_source(alloc, QuerySource::Target, request),
        Method::Post => meet_source(alloc, QuerySource::Body, request),
        Method::Other => refuse_method(alloc, "GET, POST"),
    }
}

fn meet_source(
    alloc: Global,
    source: QuerySource,
    request: &Request<'_>,
) -> Result<Found, AllocError>
    ensures { IfOk result (Meets (by_query (query_of source (asked_of request.now)))) }
{
    let Some(query) = query_of(alloc, source, request)? else {
        return refuse(alloc, StatusCode::BAD_REQUEST, "no data");
    };
    meet_text(alloc, query.as_bytes())
}

/// What comes of the text of a query: it doesn't read, or a mirror is to be asked.
fn meet_text(alloc: Global, query: &[u8]) -> Result<Found, AllocError>
    ensures { IfOk result (Meets (answer_to query.now)) }
{
    if let Err(fault) = parse(alloc, query) {
        return Ok(Found::Respond(unread_response(alloc, fault)?));
    }
    let form = form_for(asked_format(query));
    let query = query.to_vec(alloc)?;
    Ok(Found::Ask(Question { query, form }))
}

/// The response that says why a query doesn't read. It is refused where memory had run out already.
fn unread_response(alloc: Global, fault: QlFault) -> Result<Vec<u8>, AllocError>
    ensures { IfOk result (λ response. (fault.cause ≢ QlCause.Memory)
        × (response.items ≡ response_text (error_response 400 (fault_text fault)))) }
{
    match fault.cause {
        QlCause::Memory => Err(AllocError),
        _ => {
            let text = fault_text(alloc, &fault)?;
            error_response(alloc, StatusCode::BAD_REQUEST, text.as_bytes())
        }
    }
}
