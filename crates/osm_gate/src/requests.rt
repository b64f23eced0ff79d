//! All complete requests of some bytes.

ghost use Rattle.std.specs.Prelude.{◌≡◌, ◌≤◌, IfOk, IfSome, None, drop, false, length, take};
ghost use Rattle.osm_keys.specs.Publications.{Publication};
ghost use Rattle.osm_gate.specs.Connections.{RespondsOn, requests_in};
ghost use Rattle.http_messages.specs.HeadEnds.{begins_with_break, head_length, skip_breaks};
ghost use Rattle.http_messages.specs.Requests.{first_request};
ghost use Rattle.osm_gate.specs.Routes.{route_rows};
ghost use Rattle.osm_gate.specs.Terms.{terms_of};
ghost use Rattle.osm_gate.specs.internal.Kept.{IsOpen};
ghost use Rattle.osm_gate.specs.internal.Steps.{StepIs, rest_at};
ghost use Rattle.http_messages.specs.declared.limits.TheConstants.{HEAD_LIMIT};

use crate::chunks::Chunks;
use crate::mirror::Mirror;
use crate::respond::{refuse, respond};
use crate::response_bytes::ResponseBytes;
use crate::route::Route;
use http_messages::{Decision, first_request, without_breaks};
use matchit::Router;
use std::alloc::{AllocError, Global};

/// Where the bytes after the last complete request begin, and how many of them are needed before one more can
/// be complete: 0 where their head isn't complete.
#[derive(Clone, Copy)]
pub(crate) struct Open {
    pub(crate) at: usize,
    pub(crate) needed: usize,
}

/// What came of the first request.
#[derive(Clone, Copy)]
pub(crate) enum Step {
    /// It isn't complete.
    Open { needed: usize },
    /// It has its response, and the connection ends.
    Ended,
    /// It has its response, and took so many bytes.
    Next { used: usize },
}

/// The responses to all complete requests, as [`respond_to_all`] gives them, in this form.
pub(crate) fn respond_as<M: Mirror, R: ResponseBytes>(
    alloc: Global,
    router: &Router<Route>,
    mirror: &mut M,
    bytes: &[u8],
    scanned: usize,
    most: Option<u64>,
) -> Result<(R, Option<Open>), AllocError>
    requires router { router.now ≡ route_rows }
    requires scanned { head_length (take scanned (take HEAD_LIMIT (skip_breaks bytes.now))) ≡ None }
    ensures responses { (p : Publication) → M.holds mirror.old p
        → IfOk result (λ both.
        RespondsOn (terms_of most M.may_fail) p (requests_in bytes.now).complete (R.bytes both.0)) }
    ensures rest { IfOk result (λ both. (requests_in bytes.now).rest ≡ rest_at bytes.now both.1) }
    ensures open { IfOk result (λ both. IfSome both.1 (λ open_at. (open_at.at ≤ length bytes.now)
        × IsOpen open_at.needed (drop open_at.at bytes.now))) }
    ensures same { mirror.new ≡ mirror.old }
{
    let (chunks, left) = respond_to_all(alloc, router, mirror, bytes, scanned, most)?;
    let responses = R::of_chunks(chunks)?;
    Ok((responses, left))
}

/// The responses to all complete requests, each query of which has the budget, where there is one, and what is left unless
/// the connection ends. The first `scanned` bytes, those without CR and LF before them, are known to hold no complete head.
fn respond_to_all<M: Mirror>(
    alloc: Global,
    router: &Router<Route>,
    mirror: &mut M,
    bytes: &[u8],
    scanned: usize,
    most: Option<u64>,
) -> Result<(Chunks, Option<Open>), AllocError>
    requires router { router.now ≡ route_rows }
    requires scanned { head_length (take scanned (take HEAD_LIMIT (skip_breaks bytes.now))) ≡ None }
    ensures responses { (p : Publication) → M.holds mirror.old p
        → IfOk result (λ both.
        RespondsOn (terms_of most M.may_fail) p (requests_in bytes.now).complete both.0) }
    ensures rest { IfOk result (λ both. (requests_in bytes.now).rest ≡ rest_at bytes.now both.1) }
    ensures open { IfOk result (λ both. IfSome both.1 (λ open_at. (open_at.at ≤ length bytes.now)
        × IsOpen open_at.needed (drop open_at.at bytes.now))) }
    ensures same { mirror.new ≡ mirror.old }
{
    let mut responses = Chunks::new(alloc);
    let mut rest = bytes;
    let mut scanned = scanned;
    loop {
        let start = without_breaks(rest);
        match respond_to_first(alloc, &mut responses, router, mirror, start, scanned, most)? {
            Step::Open { needed } => {
                let at = bytes.len() - start.len();
                return Ok((responses, Some(Open { at, needed })));
            }
            Step::Ended => return Ok((responses, None)),
            Step::Next { used } => {
                let (_, later) = start.split_at(used);
                rest = later;
                scanned = 0;
            }
        }
    }
}

/// Appends the response to the first request, where it is complete.
fn respond_to_first<M: Mirror>(
    alloc: Global,
    responses: &mut Chunks,
    router: &Router<Route>,
    mirror: &mut M,
    bytes: &[u8],
    scanned: usize,
    most: Option<u64>,
) -> Result<Step, AllocError>
    requires router { router.now ≡ route_rows }
    requires begins { begins_with_break bytes.now ≡ false }
    requires scanned { head_length (take scanned (take HEAD_LIMIT bytes.now)) ≡ None }
    ensures step { IfOk result (λ step. StepIs (terms_of most M.may_fail) step
        (M.holds mirror.old) bytes.now responses.old responses.new) }
    ensures same { mirror.new ≡ mirror.old }
{
    match first_request(bytes, scanned) {
        Decision::HeadOpen => Ok(Step::Open { needed: 0 }),
        Decision::BodyOpen { needed } => Ok(Step::Open { needed }),
        Decision::Refused { refusal, used: _ } => {
            refuse(responses, refusal)?;
            Ok(Step::Ended)
        }
        Decision::Complete { request, used } => {
            if respond(alloc, responses, router, mirror, &request, most)? {
                return Ok(Step::Ended);
            }
            Ok(Step::Next { used })
        }
    }
}
