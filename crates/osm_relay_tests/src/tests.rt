//! Conversations over a network that a test plays.

mod budgets;
mod crowd;
mod faults;
mod memory;
mod requests;
mod scene;

use crate::tests::scene::{Scene, Then};
use mirror_reply::{is_host, write_request};
use opl_codec::read_set;
use osm_index::{Edition, Snapshot};
use osm_relay::relay_many;
use std::alloc::Global;
use std::process::Abort;
use std::test::Fail;
use tree_node::Digest;

/// Two nodes and a way.
const SET: &str = "n1 x1 y1\nn2 x2 y2\nw10 Nn1,n2\n";

/// A set of which a mirror has other objects.
const OTHER_SET: &str = "n1 x1 y1\nn2 x3 y2\n";

const QUERY: &[u8] = b"[out:json];node(1);out;";

/// What a client sends that asks this query.
const POST: &[u8] =
    b"POST /api/interpreter HTTP/1.1\r\nHost: x\r\nContent-Length: 23\r\n\r\n[out:json];node(1);out;";

/// The document that answers it.
const DOCUMENT: &[u8] =
    b"{\"version\":0.6,\"generator\":\"osm_mirror\",\"elements\":[\n{\"type\":\"node\",\"id\":1,\"lat\":1,\"lon\":1}\n]}\n";

/// What a mirror over a set is sent and sends for a query.
#[derive(Drop)]
struct Honest {
    root: Digest,
    request: Vec<u8>,
    response: Vec<u8>,
}

/// What a mirror over this set is sent and sends for this query.
fn honest_mirror(rt: &(impl Abort + AllocGlobal), set: &str, query: &[u8]) -> Result<Honest, Fail> {
    let alloc = rt.alloc();
    let objects = read_set(alloc, &mut set.as_bytes())?;
    let snapshot = Snapshot::build(alloc, objects, Edition::Two { sequence: 0 })?;
    let mut request = Vec::new(alloc);
    let host = "mirror.example:80";
    assert!(rt; is_host(host));
    write_request(alloc, &mut request, host, query)?;
    // Where there is room, writing takes no memory.
    let mut response = Vec::with_capacity(alloc, 8192)?;
    osm_gate::serve(alloc, &mut request.as_slice(), &mut response, &snapshot)?;
    Ok(Honest {
        root: *snapshot.root(),
        request,
        response,
    })
}

/// What the only client of a scene got, which was all of its response.
fn got(rt: &(impl Abort + AllocGlobal), root: &Digest, scene: &mut Scene) -> Result<Vec<u8>, Fail> {
    got_within(rt, root, scene, None)
}

/// The same, where the check of each proof has this budget.
fn got_within(
    rt: &(impl Abort + AllocGlobal),
    root: &Digest,
    scene: &mut Scene,
    most: Option<u64>,
) -> Result<Vec<u8>, Fail> {
    let mut roots = *root;
    relay_many(rt.alloc(), &mut roots, scene, 1, most)?;
    assert_eq!(rt; scene.gone.len(), 1);
    let gone = scene.gone.pop().ok_or("a client")?;
    assert!(rt; gone.whole);
    Ok(gone.got)
}

/// What a client that sends this gets from a relay whose mirror is honest.
fn relayed(
    rt: &(impl Abort + AllocGlobal),
    text: &[u8],
    query: &[u8],
    step: usize,
) -> Result<Vec<u8>, Fail> {
    let mirror = honest_mirror(rt, SET, query)?;
    let mut scene = Scene::new(rt.alloc(), text, step)?;
    scene.add(&mirror.request, &mirror.response, Then::Closes)?;
    got(rt, &mirror.root, &mut scene)
}

/// Whether a response has this status and this error, told in one line.
fn tells(response: &[u8], status: &[u8], error: &[u8]) -> bool {
    response.starts_with(status) && contains(response, error)
}

/// Whether these bytes stand in those.
fn contains(bytes: &[u8], part: &[u8]) -> bool {
    bytes
        .windows(part.len().max(1))
        .any(|window| window == part)
}
