//! Gates over packs of small sets, beside gates over the snapshots of the same sets.

use crate::devices::{Counted, Harm, Harmful, Replaced, turn};
use node_pack::{PackFault, WriteFault, write_pack};
use opl_codec::read_set;
use osm_gate::{Gate, Mirror};
use osm_index::{Edition, Snapshot};
use pack_mirror::PackMirror;
use std::alloc::{AllocError, Global};
use std::cell::Cell;
use std::process::Abort;
use std::test::Fail;

const SET: &str = "\
n1 v1 dV c5 t2020-01-02T03:04:05Z i7 uAnn Thighway=crossing x13.4 y52.5\n\
n2 x13.4000001 y52.5\n\
w10 Thighway=primary,name=A%20%B Nn1,n2,n1\n\
r100 Ttype=route Mw10@outer,n99@stop,r100@\n\
";

/// The last of them doesn't read.
const QUERIES: [&str; 7] = [
    "node(1);out;",
    "node(99);out;",
    "way(10);>;out ids;",
    "nwr[highway];out ids;",
    "node[highway][!name];out ids;",
    "node(52.4,13.3,52.6,13.5);<<;out ids;",
    "nothing",
];

/// What a mirror responds with whose device failed.
const FAILED: &[u8] = b"\
HTTP/1.1 500 Internal Server Error\r\n\
Content-Type: text/plain; charset=utf-8\r\n\
Content-Length: 7\r\n\
\r\n\
device\n";

/// The request for the root.
const ROOT: &[u8] = b"GET /api/root HTTP/1.1\r\nHost: h\r\n\r\n";

/// The snapshot of a set in an edition.
fn snapshot(alloc: Global, set: &str, edition: Edition) -> Result<Snapshot, Fail> {
    let set = read_set(alloc, &mut set.as_bytes())?;
    Ok(Snapshot::build(alloc, set, edition)?)
}

/// The pack of a snapshot.
fn pack(alloc: Global, snapshot: &Snapshot) -> Result<Vec<u8>, Fail> {
    let mut pack = Vec::new(alloc);
    match write_pack(
        alloc,
        &mut snapshot.stock().shelf(alloc),
        snapshot.root(),
        &mut pack,
    ) {
        Ok(_) => Ok(pack),
        // A vector takes what is written, unless memory runs out.
        Err(WriteFault::NotWritten) => Err(Fail::from(AllocError)),
        Err(fault) => Err(Fail::from(fault)),
    }
}

/// A snapshot and its pack.
#[derive(Drop)]
struct Published {
    snapshot: Snapshot,
    pack: Vec<u8>,
}

fn publish(alloc: Global, set: &str, edition: Edition) -> Result<Published, Fail> {
    let snapshot = snapshot(alloc, set, edition)?;
    let pack = pack(alloc, &snapshot)?;
    Ok(Published { snapshot, pack })
}

/// A request that asks a query at this end of the path.
fn request(alloc: Global, end: &str, query: &str) -> Result<Vec<u8>, AllocError> {
    let len = query.len();
    let text = format!(in alloc;
        "POST /api/{end} HTTP/1.1\r\nHost: h\r\nContent-Length: {len}\r\n\r\n{query}"
    )?;
    Ok(text.into_bytes())
}

/// What a new connection over a mirror responds to requests.
fn given<M: Mirror>(
    alloc: Global,
    mirror: &mut M,
    requests: &[u8],
    most: Option<u64>,
) -> Result<Vec<u8>, AllocError> {
    let mut gate = Gate::new(alloc)?;
    gate.feed_as(requests, mirror, most)
}

/// A request, and what a gate over a snapshot responds to it.
#[derive(Drop)]
struct Asked {
    request: Vec<u8>,
    response: Vec<u8>,
}

fn ask(alloc: Global, published: &Published, end: &str, query: &str) -> Result<Asked, AllocError> {
    let request = request(alloc, end, query)?;
    let response = given(alloc, &mut &published.snapshot, &request, None)?;
    Ok(Asked { request, response })
}

/// Each query both ways, and the root after them.
fn all_requests(alloc: Global) -> Result<Vec<u8>, AllocError> {
    let mut requests = Vec::new(alloc);
    for query in QUERIES {
        requests.extend_from_slice(&request(alloc, "interpreter", query)?)?;
        requests.extend_from_slice(&request(alloc, "checked", query)?)?;
    }
    requests.extend_from_slice(ROOT)?;
    Ok(requests)
}

/// Over the pack of a set come the very bytes that come over its snapshot. The work of the first query is 733, by hand.
fn serves_as_a_snapshot(
    rt: &(impl Abort + AllocGlobal),
    set: &str,
    edition: Edition,
) -> Result<(), Fail> {
    let alloc = rt.alloc();
    let published = publish(alloc, set, edition)?;
    let mut mirror = PackMirror::open(alloc, published.pack.as_slice())?;
    let requests = all_requests(alloc)?;
    for most in [None, Some(733), Some(732), Some(0)] {
        respond_alike(rt, &published.snapshot, &mut mirror, &requests, most)?;
    }
    Ok(())
}

/// A mirror responds as one over a snapshot does.
fn respond_alike<M: Mirror>(
    rt: &(impl Abort + AllocGlobal),
    snapshot: &Snapshot,
    mirror: &mut M,
    requests: &[u8],
    most: Option<u64>,
) -> Result<(), AllocError> {
    let mut of_snapshot = snapshot;
    let expected = given(rt.alloc(), &mut of_snapshot, requests, most)?;
    let responses = given(rt.alloc(), mirror, requests, most)?;
    assert_eq!(rt; responses.as_slice(), expected.as_slice(), "{most:?}");
    Ok(())
}

/// So many nodes that their trees have nodes with children.
fn many_nodes(alloc: Global) -> Result<String, AllocError> {
    let mut set = String::new(alloc);
    for id in 1..400_u32 {
        let line = format!(in alloc; "n{id} Thighway=crossing x13.{id} y52.5\n")?;
        set.push_str(&line)?;
    }
    Ok(set)
}

#[test]
fn serves_packs(rt: HostRuntime) -> Result<(), Fail> {
    let many = many_nodes(rt.alloc())?;
    for set in [SET, "", many.as_str()] {
        serves_as_a_snapshot(&rt, set, Edition::One)?;
        serves_as_a_snapshot(&rt, set, Edition::Two { sequence: 7 })?;
    }
    Ok(())
}

/// Whether a query has its response from a file that isn't the pack as it was, before it is opened and after. Else there is
/// none.
fn responds(
    rt: &(impl Abort + AllocGlobal),
    pack: &[u8],
    spoiled: &[u8],
    asked: &Asked,
) -> Result<bool, Fail> {
    let alloc = rt.alloc();
    if let Ok(mirror) = PackMirror::open(alloc, spoiled) {
        let mut mirror = mirror;
        responds_or_fails(rt, &mut mirror, asked)?;
    }
    let mut mirror = PackMirror::open(alloc, Replaced::new(pack, spoiled, 2))?;
    Ok(responds_or_fails(rt, &mut mirror, asked)?)
}

/// Whether a mirror responds as a gate over the snapshot does. Else its device failed.
fn responds_or_fails<M: Mirror>(
    rt: &(impl Abort + AllocGlobal),
    mirror: &mut M,
    asked: &Asked,
) -> Result<bool, AllocError> {
    let response = given(rt.alloc(), mirror, &asked.request, None)?;
    let is_as_before = response.as_slice() == asked.response.as_slice();
    assert!(rt; is_as_before || response.as_slice() == FAILED);
    Ok(is_as_before)
}

/// Each bit of a pack turned: there is no other answer.
#[test]
fn turned_bits_make_no_answer(rt: HostRuntime) -> Result<(), Fail> {
    let alloc = rt.alloc();
    let published = publish(alloc, "n1 Ta=b x1 y2\n", Edition::Two { sequence: 7 })?;
    let asked = ask(alloc, &published, "checked", "node[a];out;")?;
    let pack = published.pack.as_slice();
    let mut spoiled = pack.to_vec(alloc)?;
    let mut responded = 0_usize;
    for at in 0..pack.len() {
        for bit in [1, 2, 4, 8, 16, 32, 64, 128_u8] {
            turn(&mut spoiled, at, bit);
            if responds(&rt, pack, &spoiled, &asked)? {
                responded = responded.saturating_add(1);
            }
            turn(&mut spoiled, at, bit);
        }
    }
    // Some of its nodes are needed, and not all.
    assert!(rt; responded > 0 && responded / 8 < pack.len());
    Ok(())
}

/// A file that was cut is no pack. Where it was cut after it was opened, there is no other answer: it is a failed device where
/// it was cut before the last node that the query needs.
#[test]
fn cut_packs_make_no_answer(rt: HostRuntime) -> Result<(), Fail> {
    let alloc = rt.alloc();
    let published = publish(alloc, SET, Edition::One)?;
    let asked = ask(alloc, &published, "interpreter", QUERIES[0])?;
    let pack = published.pack.as_slice();
    let mut responded = 0_usize;
    for len in 0..pack.len() {
        let cut = &pack[..len];
        assert!(rt; PackMirror::open(alloc, cut).is_err(), "{len}");
        if responds(&rt, pack, cut, &asked)? {
            responded = responded.saturating_add(1);
        } else {
            assert!(rt; responded == 0, "{len}");
        }
    }
    assert!(rt; responded > 0 && responded < pack.len());
    Ok(())
}

/// A pack that another one took the place of is a failed device. The root stays the one that was read, and a query that doesn't
/// read is told so.
#[test]
fn replaced_packs_make_no_answer(rt: HostRuntime) -> Result<(), Fail> {
    let alloc = rt.alloc();
    let published = publish(alloc, SET, Edition::Two { sequence: 7 })?;
    let other = other_pack(alloc)?;
    let mut mirror = PackMirror::open(alloc, Replaced::new(&published.pack, &other, 2))?;
    assert!(rt; mirror.root() == published.snapshot.root());
    for end in ["interpreter", "checked"] {
        fails(&rt, &mut mirror, end, QUERIES[0])?;
        let mut others = request(alloc, end, "nothing")?;
        others.extend_from_slice(ROOT)?;
        respond_alike(&rt, &published.snapshot, &mut mirror, &others, None)?;
    }
    Ok(())
}

/// A query is told that the device failed.
fn fails<M: Mirror>(
    rt: &(impl Abort + AllocGlobal),
    mirror: &mut M,
    end: &str,
    query: &str,
) -> Result<(), AllocError> {
    let request = request(rt.alloc(), end, query)?;
    let response = given(rt.alloc(), mirror, &request, None)?;
    assert_eq!(rt; response.as_slice(), FAILED, "{end}");
    Ok(())
}

/// The pack of no objects.
fn other_pack(alloc: Global) -> Result<Vec<u8>, Fail> {
    pack(alloc, &snapshot(alloc, "", Edition::One)?)
}

/// How many of the first calls of the device make a query fail, each of them failing in turn. The next query is answered.
fn failed_calls(rt: &(impl Abort + AllocGlobal), pack: &[u8], asked: &Asked) -> Result<u32, Fail> {
    let mut failed = 0_u32;
    for before in 2..20_u32 {
        let device = Harmful::new(pack, before, Harm::Fails);
        let mut mirror = PackMirror::open(rt.alloc(), device)?;
        if !responds_or_fails(rt, &mut mirror, asked)? {
            failed = failed.saturating_add(1);
            assert!(rt; responds_or_fails(rt, &mut mirror, asked)?);
        }
    }
    Ok(failed)
}

/// A pack is opened by two calls. This query reads its manifest and its leaf.
#[test]
fn failing_devices_make_no_answer(rt: HostRuntime) -> Result<(), Fail> {
    let alloc = rt.alloc();
    let published = publish(alloc, SET, Edition::One)?;
    for before in 0..2_u32 {
        let device = Harmful::new(&published.pack, before, Harm::Fails);
        let opened = PackMirror::open(alloc, device);
        assert!(rt; opened.err() == Some(PackFault::Device), "{before}");
    }
    for end in ["interpreter", "checked"] {
        let asked = ask(alloc, &published, end, QUERIES[0])?;
        let failed = failed_calls(&rt, &published.pack, &asked)?;
        assert_eq!(rt; failed, 2, "{end}");
    }
    Ok(())
}

/// A bit of what one read gives is turned: a query has its response or fails, and the next one after a failure is answered.
fn is_well_again(
    rt: &(impl Abort + AllocGlobal),
    device: Harmful<'_>,
    asked: [&Asked; 2],
) -> Result<bool, Fail> {
    let mut mirror = PackMirror::open(rt.alloc(), device)?;
    let mut has_failed = false;
    for asked in asked {
        if !responds_or_fails(rt, &mut mirror, asked)? {
            assert!(rt; !has_failed);
            has_failed = true;
            assert!(rt; responds_or_fails(rt, &mut mirror, asked)?);
        }
    }
    Ok(has_failed)
}

/// Each byte of the manifest's record and of a leaf's turned as it is read once. The places of other nodes are in the first one,
/// so a wrong place may make a later query fail; then all is read anew.
#[test]
fn damaged_reads_are_read_anew(rt: HostRuntime) -> Result<(), Fail> {
    let alloc = rt.alloc();
    let published = publish(alloc, SET, Edition::One)?;
    let first = ask(alloc, &published, "interpreter", QUERIES[0])?;
    let second = ask(alloc, &published, "checked", QUERIES[3])?;
    for before in 2..4_u32 {
        let mut failed = 0_u32;
        for at in 0..180_usize {
            let device = Harmful::new(&published.pack, before, Harm::Turns(at));
            if is_well_again(&rt, device, [&first, &second])? {
                failed = failed.saturating_add(1);
            }
        }
        assert!(rt; failed > 0, "{before}");
    }
    Ok(())
}

/// How often a file is read for a query, which has its response.
fn reads_for<M: Mirror>(
    rt: &(impl Abort + AllocGlobal),
    mirror: &mut M,
    reads: &Cell<u32>,
    asked: &Asked,
) -> Result<u32, AllocError> {
    let before = reads.get();
    assert!(rt; responds_or_fails(rt, mirror, asked)?);
    Ok(reads.get().saturating_sub(before))
}

/// How often a file is read for a query. The second time nothing is read, with its proof or without; where nothing may be kept as
/// much as the first time.
fn reads_of_query(
    rt: &(impl Abort + AllocGlobal),
    published: &Published,
    query: &str,
) -> Result<u32, Fail> {
    let alloc = rt.alloc();
    let answer = ask(alloc, published, "interpreter", query)?;
    let proof = ask(alloc, published, "checked", query)?;
    let reads = Cell::new(0_u32);
    let mut mirror = PackMirror::open(alloc, Counted::new(&published.pack, &reads))?;
    let first = reads_for(rt, &mut mirror, &reads, &answer)?;
    assert_eq!(rt; reads_for(rt, &mut mirror, &reads, &answer)?, 0, "{query}");
    assert_eq!(rt; reads_for(rt, &mut mirror, &reads, &proof)?, 0, "{query}");
    assert_eq!(rt; reads_unkept(rt, published, &proof)?, [first; 2], "{query}");
    Ok(first)
}

/// How often a file is read for a query the first time and the second, where nothing may be kept.
fn reads_unkept(
    rt: &(impl Abort + AllocGlobal),
    published: &Published,
    asked: &Asked,
) -> Result<[u32; 2], Fail> {
    let reads = Cell::new(0_u32);
    let device = Counted::new(&published.pack, &reads);
    let mut mirror = PackMirror::open_with_limit(rt.alloc(), device, 0)?;
    let first = reads_for(rt, &mut mirror, &reads, asked)?;
    let second = reads_for(rt, &mut mirror, &reads, asked)?;
    Ok([first, second])
}

#[test]
fn kept_nodes_are_not_read(rt: HostRuntime) -> Result<(), Fail> {
    let published = publish(rt.alloc(), SET, Edition::Two { sequence: 7 })?;
    let mut read: u32 = 0;
    for query in QUERIES {
        read = read.saturating_add(reads_of_query(&rt, &published, query)?);
    }
    assert!(rt; read > 0);
    Ok(())
}

/// What a small query needs is kept within the limit. A large one needs more, so that all is dropped, and the small one reads
/// again.
#[test]
fn keeps_the_limit(rt: HostRuntime) -> Result<(), Fail> {
    let alloc = rt.alloc();
    let published = published_many(alloc)?;
    let small = ask(alloc, &published, "interpreter", QUERIES[0])?;
    let large = ask(alloc, &published, "interpreter", QUERIES[3])?;
    let reads = Cell::new(0_u32);
    let device = Counted::new(&published.pack, &reads);
    let mut mirror = PackMirror::open_with_limit(alloc, device, 20_000)?;
    let first = reads_for(&rt, &mut mirror, &reads, &small)?;
    let kept = reads_for(&rt, &mut mirror, &reads, &small)?;
    assert!(rt; first > 0 && kept == 0);
    let all = reads_for(&rt, &mut mirror, &reads, &large)?;
    assert!(rt; all > first);
    let again = reads_for(&rt, &mut mirror, &reads, &small)?;
    assert_eq!(rt; again, first);
    Ok(())
}

/// A snapshot of many nodes, and its pack.
fn published_many(alloc: Global) -> Result<Published, Fail> {
    let many = many_nodes(alloc)?;
    publish(alloc, &many, Edition::One)
}

/// Queries of which each keeps a leaf of its own, with 64 nodes, are within the limit one by one, and not together: so what was
/// kept first is read again at last.
#[test]
fn counts_what_is_kept(rt: HostRuntime) -> Result<(), Fail> {
    let alloc = rt.alloc();
    let published = published_many(alloc)?;
    let reads = Cell::new(0_u32);
    let device = Counted::new(&published.pack, &reads);
    let mut mirror = PackMirror::open_with_limit(alloc, device, 12_000)?;
    for query in [
        "node(1);out;",
        "node(100);out;",
        "node(165);out;",
        "node(230);out;",
        "node(290);out;",
        "node(350);out;",
        "node(390);out;",
        "node(1);out;",
    ] {
        let asked = ask(alloc, &published, "interpreter", query)?;
        let first = reads_for(&rt, &mut mirror, &reads, &asked)?;
        assert!(rt; first > 0, "{query}");
    }
    Ok(())
}

/// From a file that was replaced comes what is kept of the first one, until a query needs more. Then nothing is kept any more.
#[test]
fn kept_nodes_answer_for_a_replaced_pack(rt: HostRuntime) -> Result<(), Fail> {
    let alloc = rt.alloc();
    let published = publish(alloc, SET, Edition::One)?;
    let other = other_pack(alloc)?;
    let kept = ask(alloc, &published, "checked", QUERIES[0])?;
    // It is opened by two calls, and the manifest and a leaf are read.
    let mut mirror = PackMirror::open(alloc, Replaced::new(&published.pack, &other, 4))?;
    assert!(rt; responds_or_fails(&rt, &mut mirror, &kept)?);
    assert!(rt; responds_or_fails(&rt, &mut mirror, &kept)?);
    fails(&rt, &mut mirror, "checked", QUERIES[3])?;
    fails(&rt, &mut mirror, "checked", QUERIES[0])?;
    Ok(())
}

/// A pack, opened; out of memory it is opened once more.
fn open_again(alloc: Global, pack: &[u8]) -> Result<PackMirror<&[u8]>, PackFault> {
    match PackMirror::open(alloc, pack) {
        Ok(mirror) => Ok(mirror),
        Err(PackFault::Memory) => PackMirror::open(alloc, pack),
        Err(fault) => Err(fault),
    }
}

/// Run with each allocation refused in turn: the mirror and the responses, or out of memory and then these. The responses come
/// three times: where memory for what is kept is refused, the others come from what is read again.
#[test]
fn serves_within_memory(rt: HostRuntime) -> Result<(), Fail> {
    let alloc = rt.alloc();
    let published = publish(alloc, "n1 x1 y2\n", Edition::One)?;
    let mut requests = request(alloc, "interpreter", "node(1);out;")?;
    requests.extend_from_slice(&request(alloc, "checked", "node(1);out;")?)?;
    let mut mirror = open_again(alloc, &published.pack)?;
    for _ in 0..3_u32 {
        if respond_alike(&rt, &published.snapshot, &mut mirror, &requests, None).is_err() {
            respond_alike(&rt, &published.snapshot, &mut mirror, &requests, None)?;
        }
    }
    Ok(())
}
