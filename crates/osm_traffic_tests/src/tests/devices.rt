//! Devices that fail: what a query gets whose nodes can't be read, and what its connection gets then.

use super::faulty_device::FaultyDevice;
use super::network::Network;
use super::{responses, serve, snapshot_in};
use osm_desk::Desk;
use osm_index::Edition;
use std::process::Abort;
use std::test::Fail;

/// Queries of which two can't be answered from the device, one that doesn't read, and one that ends the connection.
const TEXT: &[u8] = b"\
GET /api/interpreter?data=node(2);out; HTTP/1.1\r\n\r\n\
GET /api/interpreter?data=node(1);out; HTTP/1.1\r\n\r\n\
GET /api/checked?data=node(2);out; HTTP/1.1\r\n\r\n\
GET /api/interpreter?data=node( HTTP/1.1\r\n\r\n\
GET /api/root HTTP/1.1\r\nConnection: close\r\n\r\n";

const READ: &[u8] = b"GET /api/interpreter?data=node(1);out; HTTP/1.1\r\n\r\n";

const FAULTY: &[u8] = b"GET /api/interpreter?data=node( HTTP/1.1\r\n\r\n";

const LAST: &[u8] = b"GET /api/root HTTP/1.1\r\nConnection: close\r\n\r\n";

const FAILED: &[u8] = b"\
HTTP/1.1 500 Internal Server Error\r\n\
Content-Type: text/plain; charset=utf-8\r\n\
Content-Length: 7\r\n\
\r\n\
device\n";

#[test]
fn what_fails_is_told_and_the_rest_answered(rt: HostRuntime) -> Result<(), Fail> {
    let snapshot = snapshot_in(rt.alloc(), Edition::Two { sequence: 3 })?;
    let read = responses(rt.alloc(), READ, &snapshot)?;
    let faulty = responses(rt.alloc(), FAULTY, &snapshot)?;
    let last = responses(rt.alloc(), LAST, &snapshot)?;
    let mut all = Vec::new(rt.alloc());
    for response in [FAILED, &read, FAILED, &faulty, &last] {
        all.extend_from_slice(response)?;
    }
    let mut desk = Desk::new(rt.alloc(), FaultyDevice { snapshot });
    let mut network = Network::new(rt.alloc(), TEXT, 7, 0, 0);
    serve(rt.alloc(), &mut desk, &mut network, 8, None)?;
    assert_eq!(rt; network.clients.len(), 8);
    for client in &network.clients {
        assert_eq!(rt; client.got.as_slice(), all.as_slice());
    }
    // The mirror is as it was.
    let again = responses(rt.alloc(), READ, &desk.mirror().snapshot)?;
    assert_eq!(rt; again, read);
    Ok(())
}
