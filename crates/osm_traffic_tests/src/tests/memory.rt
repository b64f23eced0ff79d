//! Memory that is refused. Run with each allocation refused in turn: the whole result, or out of memory and then the
//! whole result.

use super::network::{Client, Network};
use super::{desk_over, responses, serve};
use crate::tests::TEXT;
use osm_index::{Edition, Snapshot};
use osm_traffic::TrafficFault;
use std::process::Abort;
use std::test::Fail;

const NO_MEMORY: &[u8] = b"\
HTTP/1.1 503 Service Unavailable\r\n\
Content-Type: text/plain; charset=utf-8\r\n\
Content-Length: 10\r\n\
Connection: close\r\n\
\r\n\
no memory\n";

/// A client that was let go as a whole one got what it would get alone, or a beginning of it and then that memory ran out.
fn check(
    rt: &(impl Abort + AllocGlobal),
    client: &Client,
    snapshot: &Snapshot,
) -> Result<(), Fail> {
    let sent = TEXT.get(..client.sent).unwrap_or(b"");
    let alone = responses(rt.alloc(), sent, snapshot)?;
    let got = client.got.as_slice();
    if client.end == Some(true) && got != alone.as_slice() {
        let front = got.strip_suffix(NO_MEMORY);
        assert!(rt; front.is_some_and(|front| alone.starts_with(front)));
    }
    Ok(())
}

/// Serves four connections.
fn serve_four(rt: &(impl Abort + AllocGlobal)) -> Result<(), Fail> {
    let mut desk = desk_over(rt.alloc(), Edition::Two { sequence: 0 })?;
    let mut network = Network::new(rt.alloc(), TEXT, 11, 0, 0);
    match serve(rt.alloc(), &mut desk, &mut network, 4, None) {
        Ok(()) => assert_eq!(rt; network.clients.len(), 4),
        Err(fault) => assert_eq!(rt; fault, TrafficFault::Memory),
    }
    for client in &network.clients {
        check(rt, client, desk.snapshot())?;
    }
    Ok(())
}

#[test]
fn serves_within_memory(rt: HostRuntime) -> Result<(), Fail> {
    serve_four(&rt)?;
    serve_four(&rt)
}
