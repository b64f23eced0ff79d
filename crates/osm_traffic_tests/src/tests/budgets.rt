//! Budgets: what a query gets that passes one, and what its connection gets then.

use super::network::Network;
use super::{desk_over, responses, serve};
use osm_index::Edition;
use std::alloc::Global;
use std::process::Abort;
use std::test::Fail;

/// Three queries, one that doesn't read, and one that ends the connection. The work of `node(99);out;` is 400, by hand,
/// since there is no such node; that of `node(1);out;` is more.
const TEXT: &[u8] = b"\
GET /api/interpreter?data=node(99);out; HTTP/1.1\r\n\r\n\
GET /api/interpreter?data=node(1);out; HTTP/1.1\r\n\r\n\
GET /api/checked?data=node(1);out; HTTP/1.1\r\n\r\n\
GET /api/interpreter?data=node( HTTP/1.1\r\n\r\n\
GET /api/checked?data=node(99);out; HTTP/1.1\r\nConnection: close\r\n\r\n";

const FIRST: &[u8] = b"GET /api/interpreter?data=node(99);out; HTTP/1.1\r\n\r\n";

const FAULTY: &[u8] = b"GET /api/interpreter?data=node( HTTP/1.1\r\n\r\n";

const LAST: &[u8] = b"GET /api/checked?data=node(99);out; HTTP/1.1\r\nConnection: close\r\n\r\n";

const TOO_MUCH: &[u8] = b"\
HTTP/1.1 503 Service Unavailable\r\n\
Content-Type: text/plain; charset=utf-8\r\n\
Content-Length: 14\r\n\
\r\n\
too much work\n";

const TOO_MUCH_AT_LAST: &[u8] = b"\
HTTP/1.1 503 Service Unavailable\r\n\
Content-Type: text/plain; charset=utf-8\r\n\
Content-Length: 14\r\n\
Connection: close\r\n\
\r\n\
too much work\n";

/// The response to a request that comes alone, where there is no budget.
fn alone(alloc: Global, request: &[u8]) -> Result<Vec<u8>, Fail> {
    let desk = desk_over(alloc, Edition::Two { sequence: 3 })?;
    responses(alloc, request, desk.snapshot())
}

/// Serves eight connections that send the text, with a budget, and checks that each gets these responses.
fn check(rt: &(impl Abort + AllocGlobal), most: u64, expected: &[&[u8]]) -> Result<(), Fail> {
    let mut all = Vec::new(rt.alloc());
    for response in expected {
        all.extend_from_slice(response)?;
    }
    let mut desk = desk_over(rt.alloc(), Edition::Two { sequence: 3 })?;
    let mut network = Network::new(rt.alloc(), TEXT, 7, 0, 0);
    serve(rt.alloc(), &mut desk, &mut network, 8, Some(most))?;
    assert_eq!(rt; network.clients.len(), 8);
    for client in &network.clients {
        assert_eq!(rt; client.got.as_slice(), all.as_slice());
    }
    Ok(())
}

#[test]
fn queries_have_budgets(rt: HostRuntime) -> Result<(), Fail> {
    let first = alone(rt.alloc(), FIRST)?;
    let faulty = alone(rt.alloc(), FAULTY)?;
    let last = alone(rt.alloc(), LAST)?;
    check(&rt, 400, &[&first, TOO_MUCH, TOO_MUCH, &faulty, &last])?;
    check(
        &rt,
        399,
        &[TOO_MUCH, TOO_MUCH, TOO_MUCH, &faulty, TOO_MUCH_AT_LAST],
    )
}
