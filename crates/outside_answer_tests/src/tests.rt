//! Queries over four objects, answered from a source that has the nodes of their snapshot.

use bumpalo::Bump;
use opl_codec::read_set;
use osm_forms::Form;
use osm_index::{Edition, Snapshot};
use osm_prove::{prove, read_proof};
use outside_answer::{AnswerFault, answer_from};
use outside_shelf::{NodeSource, OutsideShelf, Refused, SourceFault};
use ql_eval::{EvalFault, Report};
use ql_syntax::parse;
use std::alloc::Global;
use std::process::Abort;
use std::test::Fail;
use tree_node::{Digest, Recorder, Shelf, ShelfFault};

const SET: &str = "\
n1 v1 dV c5 t2020-01-02T03:04:05Z i7 uAnn Thighway=crossing x13.4 y52.5\n\
n2 x13.4000001 y52.5\n\
w10 Thighway=primary,name=A%20%B Nn1,n2,n1\n\
r100 Ttype=route Mw10@outer,n99@stop,r100@\n\
";

const QUERIES: [&str; 6] = [
    "node(1);out;",
    "node(99);out;",
    "way(10);>;out ids;",
    "nwr[highway];out ids;",
    "node[highway][!name];out ids;",
    "(node(1);way(10););out ids;",
];

/// How many bytes the source may give, and how much work the evaluation may do.
#[derive(Clone, Copy, Debug)]
struct Limits {
    bytes: Option<u64>,
    work: Option<u64>,
}

const NO_LIMITS: Limits = Limits {
    bytes: None,
    work: None,
};

/// Has the nodes of a snapshot, and may turn one bit of one node that it gives.
#[derive(Drop)]
struct Stored<'a> {
    nodes: Recorder<'a>,
    /// How many nodes are given before the one of which a bit is turned.
    turned: Option<u32>,
}

impl<'a> NodeSource for Stored<'a> {
    fn read_node(
        &mut self,
        key: &Digest,
        _at_most: usize,
        into: &mut Vec<u8>,
    ) -> Result<(), SourceFault> {
        match self.nodes.fetch(key) {
            Ok(node) => into.extend_from_slice(node)?,
            Err(ShelfFault::Missing) => return Err(SourceFault::Absent),
            Err(ShelfFault::Memory) => return Err(SourceFault::Memory),
        }
        match self.turned {
            Some(0) => turn_bit(into.as_mut_slice()),
            Some(before) => self.turned = Some(before.saturating_sub(1)),
            None => {}
        }
        Ok(())
    }

    fn announce(&mut self, _top: &Digest, _lo: &[u8], _hi: &[u8]) {}
}

/// Turns the lowest bit of the last byte.
fn turn_bit(node: &mut [u8]) {
    if let Some(byte) = node.last_mut() {
        *byte ^= 1;
    }
}

/// The snapshot of the set.
fn snapshot(alloc: Global) -> Result<Snapshot, Fail> {
    let set = read_set(alloc, &mut SET.as_bytes())?;
    Ok(Snapshot::build(alloc, set, Edition::Two { sequence: 7 })?)
}

/// Writes the answer to a query after what the sink has, from a source that may turn a bit.
fn answered(
    alloc: Global,
    snapshot: &Snapshot,
    root: &Digest,
    text: &str,
    limits: Limits,
    turned: Option<u32>,
    sink: &mut Vec<u8>,
) -> Result<Result<Report, AnswerFault>, Fail> {
    let arena = Bump::new(alloc);
    let query = parse(alloc, text.as_bytes())?;
    let source = Stored {
        nodes: snapshot.stock().shelf(alloc),
        turned,
    };
    let mut shelf = OutsideShelf::new(alloc, &arena, source, limits.bytes);
    Ok(answer_from(
        alloc,
        &mut shelf,
        &query,
        root,
        Form::Opl,
        limits.work,
        sink,
    ))
}

/// From a source that has all nodes comes the answer that a mirror gives.
#[test]
fn answers_as_a_mirror_does(rt: HostRuntime) -> Result<(), Fail> {
    let alloc = rt.alloc();
    let snapshot = snapshot(alloc)?;
    for text in QUERIES {
        let proved = prove(alloc, &snapshot, text.as_bytes())?;
        let mut answer = Vec::new(alloc);
        let root = snapshot.root();
        let result = answered(alloc, &snapshot, root, text, NO_LIMITS, None, &mut answer)?;
        assert!(rt; result.is_ok(), "{text}");
        assert_eq!(rt; answer.as_slice(), proved.answer.as_slice(), "{text}");
    }
    Ok(())
}

/// Whether the query is refused where a bit of the node after so many is turned; else the answer is the mirror's.
fn is_refused(
    rt: &(impl Abort + AllocGlobal),
    snapshot: &Snapshot,
    text: &str,
    turned: u32,
) -> Result<bool, Fail> {
    let alloc = rt.alloc();
    let proved = prove(alloc, snapshot, text.as_bytes())?;
    let mut answer = Vec::new(alloc);
    let root = snapshot.root();
    let result = answered(
        alloc,
        snapshot,
        root,
        text,
        NO_LIMITS,
        Some(turned),
        &mut answer,
    )?;
    match result {
        Ok(_) => assert_eq!(rt; answer.as_slice(), proved.answer.as_slice(), "{text}"),
        Err(fault) => {
            assert_eq!(rt; fault, AnswerFault::Source(Refused::Other), "{text}");
            assert_eq!(rt; answer.len(), 0, "{text}");
        }
    }
    Ok(result.is_err())
}

/// One bit of any node turned makes no other answer. A query needs at least the manifest, and none of these more than 40
/// nodes.
#[test]
fn turned_bits_make_no_answer(rt: HostRuntime) -> Result<(), Fail> {
    let snapshot = snapshot(rt.alloc())?;
    for text in QUERIES {
        assert!(rt; is_refused(&rt, &snapshot, text, 0)?, "{text}");
        for turned in 1..40 {
            is_refused(&rt, &snapshot, text, turned)?;
        }
        assert!(rt; !is_refused(&rt, &snapshot, text, 40)?, "{text}");
    }
    Ok(())
}

/// The bytes of the nodes that a query needs are enough, and one less aren't. The work of this query is 733, by hand.
#[test]
fn keeps_the_limits(rt: HostRuntime) -> Result<(), Fail> {
    let alloc = rt.alloc();
    let snapshot = snapshot(alloc)?;
    let text = QUERIES[0];
    let proved = prove(alloc, &snapshot, text.as_bytes())?;
    let mut bytes = 0_u64;
    for part in &read_proof(alloc, &proved.proof)? {
        bytes = bytes.saturating_add(part.bytes().len() as u64);
    }
    let fewer = Some(bytes.saturating_sub(1));
    for (bytes, work, fault) in [
        (Some(bytes), Some(733), None),
        (fewer, None, Some(AnswerFault::Source(Refused::TooMany))),
        (
            None,
            Some(732),
            Some(AnswerFault::Evaluation(EvalFault::Work)),
        ),
    ] {
        let mut answer = Vec::new(alloc);
        let limits = Limits { bytes, work };
        let root = snapshot.root();
        let result = answered(alloc, &snapshot, root, text, limits, None, &mut answer)?;
        assert!(rt; result.err() == fault, "{limits:?}");
        assert_eq!(rt; answer.is_empty(), fault.is_some());
    }
    Ok(())
}

/// Under a root that the source doesn't know there is no answer.
#[test]
fn knows_no_other_root(rt: HostRuntime) -> Result<(), Fail> {
    let alloc = rt.alloc();
    let snapshot = snapshot(alloc)?;
    let root = Digest([0; 32]);
    let mut answer = b"before".to_vec(alloc)?;
    let result = answered(
        alloc,
        &snapshot,
        &root,
        QUERIES[0],
        NO_LIMITS,
        None,
        &mut answer,
    )?;
    assert!(rt; result == Err(AnswerFault::Source(Refused::Absent)));
    assert_eq!(rt; answer.as_slice(), b"before".as_slice());
    Ok(())
}

/// Run with each allocation refused in turn: the answer, or out of memory with nothing written and then the answer.
#[test]
fn answers_within_memory(rt: HostRuntime) -> Result<(), Fail> {
    let alloc = rt.alloc();
    let snapshot = snapshot(alloc)?;
    let root = snapshot.root();
    let text = "nwr[highway];out ids;";
    let mut answer = Vec::new(alloc);
    if let Err(fault) = answered(alloc, &snapshot, root, text, NO_LIMITS, None, &mut answer)? {
        let is_memory = fault == AnswerFault::Source(Refused::Memory)
            || fault == AnswerFault::Evaluation(EvalFault::Memory);
        assert!(rt; is_memory, "{fault}");
        assert_eq!(rt; answer.len(), 0);
        let again = answered(alloc, &snapshot, root, text, NO_LIMITS, None, &mut answer)?;
        assert!(rt; again.is_ok());
    }
    assert_eq!(rt; answer.as_slice(), b"n1\nw10\n".as_slice());
    Ok(())
}
