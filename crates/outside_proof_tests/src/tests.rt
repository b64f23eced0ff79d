//! Queries over four objects, proved and answered over shelves of their nodes.

use crate::sources::{Spoiling, Stored};
use bumpalo::Bump;
use node_pack::PackSource;
use opl_codec::read_set;
use osm_index::{Edition, Snapshot};
use osm_prove::{Proved, prove, read_proof};
use outside_proof::{AnswerAndProof, OutsideFault, answer_over, prove_over};
use outside_shelf::{NodeSource, OutsideShelf, Refused};
use pack_devices::pack_of;
use ql_eval::{EvalFault, ManifestFault};
use ql_syntax::parse;
use std::alloc::Global;
use std::process::Abort;
use std::test::Fail;
use tree_node::{Digest, digest_of};

const SET: &str = "\
n1 v1 dV c5 t2020-01-02T03:04:05Z i7 uAnn Thighway=crossing x13.4 y52.5\n\
n2 x13.4000001 y52.5\n\
w10 Thighway=primary,name=A%20%B Nn1,n2,n1\n\
r100 Ttype=route Mw10@outer,n99@stop,r100@\n\
";

const QUERIES: [&str; 6] = [
    "node(1);out;",
    "node(99);out;",
    "way(10);>;out ids;",
    "nwr[highway];out ids;",
    "node[highway][!name];out ids;",
    "(node(1);way(10););out ids;",
];

/// How many bytes a source may give, and how much work may be done.
#[derive(Clone, Copy, Debug)]
struct Limits {
    bytes: Option<u64>,
    work: Option<u64>,
}

const NO_LIMITS: Limits = Limits {
    bytes: None,
    work: None,
};

/// The snapshot of the set in an edition.
fn snapshot(alloc: Global, edition: Edition) -> Result<Snapshot, Fail> {
    let set = read_set(alloc, &mut SET.as_bytes())?;
    Ok(Snapshot::build(alloc, set, edition)?)
}

/// A query that reads, proved from a source.
fn proved<N: NodeSource + Drop>(
    alloc: Global,
    source: N,
    root: &Digest,
    text: &str,
    limits: Limits,
) -> Result<AnswerAndProof, OutsideFault> {
    let Ok(query) = parse(alloc, text.as_bytes()) else {
        return Err(OutsideFault::Memory);
    };
    let arena = Bump::new(alloc);
    let mut shelf = OutsideShelf::new(alloc, &arena, source, limits.bytes);
    prove_over(alloc, &mut shelf, &query, root, limits.work)
}

/// A query that reads, answered from a source.
fn answered<N: NodeSource + Drop>(
    alloc: Global,
    source: N,
    root: &Digest,
    text: &str,
    limits: Limits,
) -> Result<Vec<u8>, OutsideFault> {
    let Ok(query) = parse(alloc, text.as_bytes()) else {
        return Err(OutsideFault::Memory);
    };
    let arena = Bump::new(alloc);
    let mut shelf = OutsideShelf::new(alloc, &arena, source, limits.bytes);
    answer_over(alloc, &mut shelf, &query, root, limits.work)
}

/// From a pack of the snapshot come the proof and the answer that a mirror gives of the snapshot.
fn proves_as_a_mirror_does(
    rt: &(impl Abort + AllocGlobal),
    edition: Edition,
    text: &str,
) -> Result<(), Fail> {
    let snapshot = snapshot(rt.alloc(), edition)?;
    let expected = prove(rt.alloc(), &snapshot, text.as_bytes())?;
    let pack = pack_of(rt.alloc(), snapshot.stock(), snapshot.root())?;
    check_proved(rt, pack.as_slice(), text, &expected)?;
    check_answered(rt, pack.as_slice(), text, &expected)
}

/// Whether these are the proof and the answer to a query over a pack.
fn check_proved(
    rt: &(impl Abort + AllocGlobal),
    pack: &[u8],
    text: &str,
    expected: &Proved,
) -> Result<(), Fail> {
    let source = PackSource::open(rt.alloc(), pack)?;
    let given = proved(rt.alloc(), source, &expected.root, text, NO_LIMITS)?;
    assert!(rt; given.answer == expected.answer, "{text}");
    assert!(rt; given.proof == expected.proof, "{text}");
    Ok(())
}

/// Whether this is the answer to a query over a pack without its proof.
fn check_answered(
    rt: &(impl Abort + AllocGlobal),
    pack: &[u8],
    text: &str,
    expected: &Proved,
) -> Result<(), Fail> {
    let source = PackSource::open(rt.alloc(), pack)?;
    let given = answered(rt.alloc(), source, &expected.root, text, NO_LIMITS)?;
    assert!(rt; given == expected.answer, "{text}");
    Ok(())
}

#[test]
fn proves_from_packs(rt: HostRuntime) -> Result<(), Fail> {
    for text in QUERIES {
        proves_as_a_mirror_does(&rt, Edition::One, text)?;
        proves_as_a_mirror_does(&rt, Edition::Two { sequence: 7 }, text)?;
    }
    Ok(())
}

/// How many of the first forty nodes the source has to give for a query: each of them spoiled is told by its reason.
fn spoiled_nodes(
    rt: &(impl Abort + AllocGlobal),
    snapshot: &Snapshot,
    text: &str,
    how: Spoiling,
    reason: Refused,
) -> Result<u32, Fail> {
    let alloc = rt.alloc();
    let root = snapshot.root();
    let mut spoiled = 0_u32;
    for before in 0..40 {
        let source = Stored::new(alloc, snapshot, Some((before, how)));
        let proof = proved(alloc, source, root, text, NO_LIMITS);
        let source = Stored::new(alloc, snapshot, Some((before, how)));
        let answer = answered(alloc, source, root, text, NO_LIMITS);
        assert!(rt; proof.is_err() == answer.is_err(), "{text}");
        if let Err(fault) = proof {
            assert!(rt; fault == OutsideFault::Source(reason), "{fault}");
            spoiled = spoiled.saturating_add(1);
        }
        if let Err(fault) = answer {
            assert!(rt; fault == OutsideFault::Source(reason), "{fault}");
        }
    }
    Ok(spoiled)
}

/// Each node that a query needs is asked for once, so as many can be spoiled as its proof lists.
#[test]
fn tells_why_a_node_is_not_given(rt: HostRuntime) -> Result<(), Fail> {
    let alloc = rt.alloc();
    let snapshot = snapshot(alloc, Edition::Two { sequence: 7 })?;
    for text in QUERIES {
        let expected = prove(alloc, &snapshot, text.as_bytes())?;
        let nodes = read_proof(alloc, &expected.proof)?.len();
        for (how, reason) in [
            (Spoiling::Lacks, Refused::Absent),
            (Spoiling::Turns, Refused::Other),
            (Spoiling::Fails, Refused::Device),
        ] {
            let spoiled = spoiled_nodes(&rt, &snapshot, text, how, reason)?;
            assert_eq!(rt; spoiled as usize, nodes, "{text}");
        }
    }
    Ok(())
}

/// The bytes of the nodes that a query needs are enough, and one less aren't. The work of this query is 733, by hand.
#[test]
fn keeps_the_limits(rt: HostRuntime) -> Result<(), Fail> {
    let snapshot = snapshot(rt.alloc(), Edition::Two { sequence: 7 })?;
    let text = QUERIES[0];
    let bytes = needed_bytes(rt.alloc(), &snapshot, text)?;
    let fewer = Some(bytes.saturating_sub(1));
    let too_many = Some(OutsideFault::Source(Refused::TooMany));
    for (bytes, work, fault) in [
        (Some(bytes), Some(733), None),
        (fewer, None, too_many),
        (None, Some(732), Some(OutsideFault::Work)),
    ] {
        check_limits(&rt, &snapshot, text, Limits { bytes, work }, fault);
    }
    Ok(())
}

/// How many bytes the nodes have that a query needs.
fn needed_bytes(alloc: Global, snapshot: &Snapshot, text: &str) -> Result<u64, Fail> {
    let expected = prove(alloc, snapshot, text.as_bytes())?;
    let mut bytes = 0_u64;
    for part in &read_proof(alloc, &expected.proof)? {
        bytes = bytes.saturating_add(part.bytes().len() as u64);
    }
    Ok(bytes)
}

/// Whether a query within these limits ends with this fault, with a proof and without.
fn check_limits(
    rt: &(impl Abort + AllocGlobal),
    snapshot: &Snapshot,
    text: &str,
    limits: Limits,
    fault: Option<OutsideFault>,
) {
    let root = snapshot.root();
    let source = Stored::new(rt.alloc(), snapshot, None);
    let told = proved(rt.alloc(), source, root, text, limits).err();
    assert!(rt; told == fault, "{limits:?}");
    let source = Stored::new(rt.alloc(), snapshot, None);
    let told = answered(rt.alloc(), source, root, text, limits).err();
    assert!(rt; told == fault, "{limits:?}");
}

/// Has the same bytes for whatever is asked.
#[derive(Drop)]
struct Same(&'static [u8]);

impl NodeSource for Same {
    fn read_node(
        &mut self,
        _key: &Digest,
        _at_most: usize,
        into: &mut Vec<u8>,
    ) -> Result<(), outside_shelf::SourceFault> {
        into.extend_from_slice(self.0)?;
        Ok(())
    }

    fn announce(&mut self, _top: &Digest, _lo: &[u8], _hi: &[u8]) {}
}

/// Bytes that are no manifest are no publication's.
#[test]
fn tells_what_is_wrong(rt: HostRuntime) -> Result<(), Fail> {
    let alloc = rt.alloc();
    let root = digest_of(b"no manifest");
    let malformed = OutsideFault::Evaluation(EvalFault::Manifest(ManifestFault::Malformed));
    let source = Same(b"no manifest");
    let told = proved(alloc, source, &root, QUERIES[0], NO_LIMITS).err();
    assert!(rt; told == Some(malformed), "{told:?}");
    let source = Same(b"no manifest");
    let told = answered(alloc, source, &root, QUERIES[0], NO_LIMITS).err();
    assert!(rt; told == Some(malformed), "{told:?}");
    Ok(())
}

/// A shelf that was used before gives the same answer again, and its source isn't asked any more.
#[test]
fn answers_over_a_used_shelf(rt: HostRuntime) -> Result<(), Fail> {
    let alloc = rt.alloc();
    let snapshot = snapshot(alloc, Edition::Two { sequence: 7 })?;
    let root = snapshot.root();
    let query = parse(alloc, QUERIES[2].as_bytes())?;
    let arena = Bump::new(alloc);
    let source = Stored::new(alloc, &snapshot, None);
    let mut shelf = OutsideShelf::new(alloc, &arena, source, Some(100_000));
    let first = answer_over(alloc, &mut shelf, &query, root, None)?;
    let left = shelf.left();
    let again = answer_over(alloc, &mut shelf, &query, root, None)?;
    assert_eq!(rt; first.as_slice(), b"n1\nn2\n".as_slice());
    assert_eq!(rt; again.as_slice(), first.as_slice());
    assert!(rt; left < Some(100_000) && shelf.left() == left);
    Ok(())
}

/// Run with each allocation refused in turn: the proof and the answer, or out of memory and then these.
#[test]
fn proves_within_memory(rt: HostRuntime) -> Result<(), Fail> {
    let alloc = rt.alloc();
    let snapshot = snapshot(alloc, Edition::Two { sequence: 7 })?;
    let root = snapshot.root();
    let text = "nwr[highway];out ids;";
    let mut first = proved(
        alloc,
        Stored::new(alloc, &snapshot, None),
        root,
        text,
        NO_LIMITS,
    );
    if let Err(fault) = first {
        assert!(rt; fault == OutsideFault::Memory, "{fault}");
        first = proved(
            alloc,
            Stored::new(alloc, &snapshot, None),
            root,
            text,
            NO_LIMITS,
        );
    }
    assert_eq!(rt; first?.answer.as_slice(), b"n1\nw10\n".as_slice());
    let mut second = answered(
        alloc,
        Stored::new(alloc, &snapshot, None),
        root,
        text,
        NO_LIMITS,
    );
    if let Err(fault) = second {
        assert!(rt; fault == OutsideFault::Memory, "{fault}");
        second = answered(
            alloc,
            Stored::new(alloc, &snapshot, None),
            root,
            text,
            NO_LIMITS,
        );
    }
    assert_eq!(rt; second?.as_slice(), b"n1\nw10\n".as_slice());
    Ok(())
}
