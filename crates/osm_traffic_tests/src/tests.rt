//! Many connections over a network that a test plays.

ghost use Rattle.std.specs.FinMap.{empty};
ghost use Rattle.std.specs.Prelude.{◌≡◌, IfOk};

mod budgets;
mod devices;
mod faulty_device;
mod memory;
mod network;
mod orders;

use crate::tests::network::Network;
use opl_codec::read_set;
use osm_desk::{Desk, NoLookout};
use osm_gate::Mirror;
use osm_index::{Edition, Snapshot};
use osm_traffic::{TrafficFault, serve_many};
use std::alloc::Global;
use std::test::Fail;

/// Two nodes and a way.
const SET: &str = "n1 x1 y1\nn2 x2 y2\nw10 Nn1,n2\n";

/// What each client sends: requests of all kinds, and at last one that ends the connection.
const TEXT: &[u8] = b"\
GET /api/root HTTP/1.1\r\n\r\n\
GET /api/interpreter?data=node(-9,-9,9,9);out; HTTP/1.1\r\n\r\n\r\n\
POST /api/checked HTTP/1.1\r\nContent-Length: 12\r\n\r\nnode(1);out;\
GET /api/interpreter?data=node( HTTP/1.1\n\n\
POST /api/interpreter HTTP/1.1\r\nContent-Length: 24\r\nConnection: close\r\n\r\nnode(2);way(bn);out ids;\
GET /x HTTP/1.1\r\n\r\n";

/// A snapshot of the set, in this edition.
fn snapshot_in(alloc: Global, edition: Edition) -> Result<Snapshot, Fail> {
    let set = read_set(alloc, &mut SET.as_bytes())?;
    Ok(Snapshot::build(alloc, set, edition)?)
}

/// A desk over the set, in this edition.
fn desk_over(alloc: Global, edition: Edition) -> Result<Desk<Snapshot>, Fail>
    ensures { IfOk result (λ desk. desk.connections ≡ empty) }
{
    Ok(Desk::new(alloc, snapshot_in(alloc, edition)?))
}

/// Serves so many connections of a network, whose queries have a budget, or none.
fn serve<M: Mirror>(
    alloc: Global,
    desk: &mut Desk<M>,
    network: &mut Network,
    connections: u32,
    most: Option<u64>,
) -> Result<(), TrafficFault>
    requires { desk.old.connections ≡ empty }
{
    let mut errors = Vec::new(alloc);
    serve_many(
        alloc,
        desk,
        &mut NoLookout,
        network,
        connections,
        most,
        &mut errors,
    )
}

/// The responses to these bytes alone.
fn responses(alloc: Global, mut bytes: &[u8], snapshot: &Snapshot) -> Result<Vec<u8>, Fail> {
    // Where there is room, writing takes no memory.
    let mut written = Vec::with_capacity(alloc, 8192)?;
    osm_gate::serve(alloc, &mut bytes, &mut written, snapshot)?;
    Ok(written)
}
