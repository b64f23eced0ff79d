//! Choosing the mirror that is asked.

ghost use Rattle.std.specs.Prelude.{◌≡◌, IfOk, List, None, Option, Some, false, option_map, true, ℕ};
ghost use Rattle.mirror_reply.specs.Requests.{is_host_text, request_text};
ghost use Rattle.osm_relay.specs.Logs.{Log, fresh};
ghost use Rattle.osm_relay.specs.MirrorTexts.{mirror_text, status_of_fault};
ghost use Rattle.osm_relay.specs.Pages.{error_response};
ghost use Rattle.http_messages.specs.ResponseTexts.{response_text};
ghost use Rattle.osm_relay.specs.declared.terms.Terms.{Terms};
ghost use Rattle.osm_relay.specs.internal.Stages.{StandsAt};

use crate::fault_texts::mirror_text;
use crate::network::Network;
use crate::output::Output;
use crate::page::error_response;
use crate::question::Question;
use crate::stage::{Search, Stage};
use crate::step::starved;
use crate::wire::Wire;
use http::StatusCode;
use mirror_answer::MirrorFault;
use mirror_reply::write_request;
use std::alloc::{AllocError, Global};

/// Dials the next mirror. Where all have been asked, the client is told why the last one gives no answer.
pub(crate) fn choose<W: Wire, N: Network<W>>(
    alloc: Global,
    network: &mut N,
    number: u32,
    mirror: &mut Option<W>,
    search: Search,
) -> Stage
    ensures log { N.log network.new ≡ N.log network.old }
    ensures stage { (terms : Terms) (client : Log) → W.tells ≡ true
        → StandsAt terms (Stage.Choosing search) client (option_map W.log mirror.old)
        → StandsAt terms result client (option_map W.log mirror.new) }
{
    let Some(host) = network.host(search.next) else {
        return give_up(alloc, search);
    };
    let Ok(request) = request_for(alloc, host, &search.question) else {
        return starved();
    };
    let wire = network.dial(number, search.next);
    let stage = dialled(wire.is_some(), search, request);
    *mirror = wire;
    stage
}

/// Where the conversation stands once the next mirror was dialled.
fn dialled(is_open: bool, search: Search, request: Vec<u8>) -> Stage
    ensures asking { (terms : Terms) (host : List ℕ) (c : Log) (m : Option Log) → is_open ≡ true
        → StandsAt terms (Stage.Choosing search) c m → is_host_text host ≡ true
        → request.items ≡ request_text host search.question.query
        → StandsAt terms result c (Some fresh) }
    ensures choosing { (terms : Terms) (c : Log) (m : Option Log) → is_open ≡ false
        → StandsAt terms (Stage.Choosing search) c m → StandsAt terms result c None }
{
    let search = search.passed();
    if is_open {
        return Stage::Asking {
            search,
            request: Output::new(request),
        };
    }
    Stage::Choosing(search)
}

/// The request that asks for the answer to this query.
fn request_for(alloc: Global, host: &str, question: &Question) -> Result<Vec<u8>, AllocError>
    requires { is_host_text host.now ≡ true }
    ensures { IfOk result (λ request. request.items ≡ request_text host.now question.now.query) }
{
    let mut request = Vec::new(alloc);
    write_request(alloc, &mut request, host, &question.query)?;
    Ok(request)
}

/// Tells the client why the last mirror gives no answer.
fn give_up(alloc: Global, search: Search) -> Stage
    ensures { (terms : Terms) (c : Log) (m : Option Log) → StandsAt terms (Stage.Choosing search) c m
        → StandsAt terms result c m }
{
    match fault_response(alloc, search.fault) {
        Ok(response) => Stage::Answering(Output::new(response)),
        Err(_) => starved(),
    }
}

/// The response that says why a mirror gives no answer.
fn fault_response(alloc: Global, fault: MirrorFault) -> Result<Vec<u8>, AllocError>
    ensures { IfOk result (λ response. response.items
        ≡ response_text (error_response (status_of_fault fault) (mirror_text fault))) }
{
    let text = mirror_text(alloc, fault)?;
    error_response(alloc, status_of_fault(fault), text.as_bytes())
}

/// The status of the response that says so: a mirror isn't at fault where the client's own check has no budget for more.
fn status_of_fault(fault: MirrorFault) -> StatusCode
    ensures { result ≡ status_of_fault fault }
{
    match fault {
        MirrorFault::Work => StatusCode::SERVICE_UNAVAILABLE,
        MirrorFault::Unreached
        | MirrorFault::Silent
        | MirrorFault::Reply(_)
        | MirrorFault::OtherRoot
        | MirrorFault::Proof(_) => StatusCode::BAD_GATEWAY,
    }
}
