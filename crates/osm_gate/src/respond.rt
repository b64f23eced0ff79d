//! The response to a request.

ghost use Rattle.std.specs.Prelude.{◌≡◌, ◌++◌, IfOk, OnOk};
ghost use Rattle.osm_keys.specs.Publications.{Publication, root_of};
ghost use Rattle.http_messages.specs.Forms.{query_of};
ghost use Rattle.http_messages.specs.ResponseTexts.{response_text};
ghost use Rattle.osm_gate.specs.Responses.{ByMethodOn, ByQueryOn, ByRouteOn, IsResponseOn, ends, refused_response, root_by_method};
ghost use Rattle.osm_gate.specs.Routes.{route_rows};
ghost use Rattle.osm_gate.specs.Terms.{terms_of};
ghost use Rattle.osm_gate.specs.internal.Adding.{AddsResponse};
ghost use Rattle.http_messages.specs.Decisions.{asked_of};

use crate::chunks::Chunks;
use crate::mirror::Mirror;
use crate::query_response::respond_to_query;
use crate::reply::Reply;
use crate::response::{write_not_allowed, write_ok, write_refusal};
use crate::route::{Route, route_of};
use http::StatusCode;
use http_messages::{Method, QuerySource, Refusal, Request, method_of, query_of, split_target};
use matchit::Router;
use std::alloc::{AllocError, Global};

/// Appends the response to a complete request, whose query has the budget, where there is one, and tells whether the
/// connection ends after it. Out of memory it leaves what it wrote.
#[tactic(auto, unfolding(crate::specs::Responses::IsResponseOn))]
pub(crate) fn respond<M: Mirror>(
    alloc: Global,
    output: &mut Chunks,
    router: &Router<Route>,
    mirror: &mut M,
    request: &Request<'_>,
    most: Option<u64>,
) -> Result<bool, AllocError>
    requires { router.now ≡ route_rows }
    ensures text { (p : Publication) → M.holds mirror.old p
        → OnOk result (AddsResponse (IsResponseOn (terms_of most M.may_fail) p (asked_of request.now))
        output.old output.new) }
    ensures closes { IfOk result (λ closes. closes ≡ ends (asked_of request.now)) }
    ensures same { mirror.new ≡ mirror.old }
{
    let closes = request.closes || request.method == b"HEAD".as_slice();
    let (path, _) = split_target(request.target);
    let route = route_of(router, path);
    respond_on(alloc, output, closes, mirror, request, route, most)?;
    Ok(closes)
}

fn respond_on<M: Mirror>(
    alloc: Global,
    output: &mut Chunks,
    closes: bool,
    mirror: &mut M,
    request: &Request<'_>,
    route: Option<Route>,
    most: Option<u64>,
) -> Result<(), AllocError>
    ensures response { (p : Publication) → M.holds mirror.old p
        → OnOk result (AddsResponse (ByRouteOn (terms_of most M.may_fail) closes p (asked_of request.now) route)
        output.old output.new) }
    ensures same { mirror.new ≡ mirror.old }
{
    let method = method_of(request.method);
    match route {
        None => write_refusal(output, closes, StatusCode::NOT_FOUND, "not found"),
        Some(Route::Query(endpoint)) => {
            let reply = Reply { endpoint, closes };
            respond_query(alloc, output, reply, mirror, request, method, most)
        }
        Some(Route::Root) => respond_root(alloc, output, closes, mirror, method),
    }
}

fn respond_query<M: Mirror>(
    alloc: Global,
    output: &mut Chunks,
    reply: Reply,
    mirror: &mut M,
    request: &Request<'_>,
    method: Method,
    most: Option<u64>,
) -> Result<(), AllocError>
    ensures response { (p : Publication) → M.holds mirror.old p
        → OnOk result (AddsResponse (ByMethodOn (terms_of most M.may_fail) reply p (asked_of request.now) method)
        output.old output.new) }
    ensures same { mirror.new ≡ mirror.old }
{
    match method {
        Method::Get => answer(
            alloc,
            output,
            reply,
            mirror,
            QuerySource::Target,
            request,
            most,
        ),
        Method::Post => answer(
            alloc,
            output,
            reply,
            mirror,
            QuerySource::Body,
            request,
            most,
        ),
        Method::Other => write_not_allowed(output, reply.closes, "GET, POST"),
    }
}

fn answer<M: Mirror>(
    alloc: Global,
    output: &mut Chunks,
    reply: Reply,
    mirror: &mut M,
    source: QuerySource,
    request: &Request<'_>,
    most: Option<u64>,
) -> Result<(), AllocError>
    ensures response { (p : Publication) → M.holds mirror.old p
        → OnOk result (AddsResponse (ByQueryOn (terms_of most M.may_fail) reply p (query_of source (asked_of request.now)))
        output.old output.new) }
    ensures same { mirror.new ≡ mirror.old }
{
    let Some(query) = query_of(alloc, source, request)? else {
        let status = StatusCode::BAD_REQUEST;
        return write_refusal(output, reply.closes, status, "no data");
    };
    respond_to_query(alloc, output, reply, mirror, query.as_bytes(), most)
}

fn respond_root<M: Mirror>(
    alloc: Global,
    output: &mut Chunks,
    closes: bool,
    mirror: &M,
    method: Method,
) -> Result<(), AllocError>
    ensures { (p : Publication) → M.holds mirror.now p
        → OnOk result (output.new ≡ output.old
        ++ response_text (root_by_method closes (root_of p) method)) }
{
    if method != Method::Get {
        return write_not_allowed(output, closes, "GET");
    }
    let digits = hex::encode(alloc, &mirror.root().0)?;
    let body = [digits.as_bytes(), b"\n"];
    write_ok(output, closes, mirror.root(), false, &body)
}

/// Appends the response to a request that is refused as it stands. Out of memory it leaves what it wrote.
pub(crate) fn refuse(output: &mut Chunks, refusal: Refusal) -> Result<(), AllocError>
    ensures { OnOk result (output.new ≡ output.old
        ++ response_text (refused_response refusal)) }
{
    write_refusal(output, true, refusal.status(), refusal.text())
}
