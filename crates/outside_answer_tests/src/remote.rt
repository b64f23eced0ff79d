//! Queries answered from packs far away, and how many round trips they take.

use crate::packs::{ANSWERS, PACK, ROOT};
use bumpalo::Bump;
use node_pack::{PackSource, ReadAt};
use opl_codec::read_set;
use osm_forms::Form;
use osm_index::{Edition, Snapshot};
use outside_answer::{AnswerFault, answer_from};
use outside_shelf::{OutsideShelf, Refused};
use pack_devices::{Remote, Seen, pack_of};
use ql_eval::EvalFault;
use ql_syntax::parse;
use std::alloc::Global;
use std::process::Abort;
use std::test::Fail;
use tree_node::{Digest, Shelf};

/// Writes the answer to a query over a pack.
fn answer<F: ReadAt + Drop>(
    alloc: Global,
    file: F,
    root: &Digest,
    text: &str,
    into: &mut Vec<u8>,
) -> Result<Result<(), AnswerFault>, Fail> {
    let arena = Bump::new(alloc);
    let query = parse(alloc, text.as_bytes())?;
    let source = PackSource::open(alloc, file)?;
    let mut shelf = OutsideShelf::new(alloc, &arena, source, None);
    let told = answer_from(alloc, &mut shelf, &query, root, Form::Opl, None, into);
    Ok(told.map(|_| ()))
}

/// The pack of the four objects has one node a tree, so that each tree that a query needs is a round: that of the objects, for
/// `<` that of the backs too, and for a box whose ids are asked for that of the cells alone, which has the places. The header and
/// the manifest are read before anything is announced.
#[test]
fn takes_a_round_a_tree(rt: HostRuntime) -> Result<(), Fail> {
    let alloc = rt.alloc();
    for ((text, expected), rounds) in ANSWERS.iter().zip([1, 1, 2, 1, 1, 1, 1]) {
        let seen = Seen::new();
        let mut into = Vec::new(alloc);
        let remote = Remote::new(alloc, PACK, &seen);
        assert!(rt;
            answer(alloc, remote, &ROOT, text, &mut into)?.is_ok(),
            "{text}"
        );
        assert_eq!(rt; into.as_slice(), expected.as_bytes(), "{text}");
        assert_eq!(rt; seen.rounds.get(), rounds, "{text}");
        assert_eq!(rt; seen.sudden.get(), 2, "{text}");
        assert_eq!(rt; seen.again.get(), 0, "{text}");
    }
    Ok(())
}

/// A text of 3,000 nodes, with places and values from a seed.
fn many_nodes(alloc: Global) -> Result<Vec<u8>, Fail> {
    let mut text = Vec::new(alloc);
    let mut seed = 20_261_128_u32;
    for id in 1..3001 {
        seed = seed.wrapping_mul(1_664_525).wrapping_add(1_013_904_223);
        let value = (seed >> 20) % 50;
        let x = (seed >> 16) % 180;
        let y = (seed >> 8) % 90;
        let line = format!(in alloc; "n{id} Tk={value} x{x} y{y}\n")?;
        text.extend_from_slice(line.as_bytes())?;
    }
    Ok(text)
}

/// How many levels the tree with this top has: the second byte of a node is its level.
fn levels(alloc: Global, snapshot: &Snapshot, top: &Digest) -> Result<u32, Fail> {
    let mut shelf = snapshot.stock().shelf(alloc);
    let node = shelf.fetch(top)?;
    match node.get(1) {
        Some(level) => Ok(u32::from(*level).saturating_add(1)),
        None => Ok(0),
    }
}

/// The trees of many objects.
fn many_objects(alloc: Global) -> Result<Snapshot, Fail> {
    let text = many_nodes(alloc)?;
    let set = read_set(alloc, &mut text.as_slice())?;
    Ok(Snapshot::build(alloc, set, Edition::Two { sequence: 7 })?)
}

/// What a query means over a pack.
fn answered<F: ReadAt + Drop>(
    rt: &(impl Abort + AllocGlobal),
    file: F,
    root: &Digest,
    text: &str,
) -> Result<Vec<u8>, Fail> {
    let mut into = Vec::new(rt.alloc());
    let told = answer(rt.alloc(), file, root, text, &mut into)?;
    assert!(rt; told.is_ok(), "{text}");
    Ok(into)
}

/// Whether a query over a pack far away takes so many rounds, and has the answer of the pack at hand.
fn check_rounds(
    rt: &(impl Abort + AllocGlobal),
    pack: &[u8],
    root: &Digest,
    text: &str,
    rounds: u32,
) -> Result<(), Fail> {
    let seen = Seen::new();
    let near = answered(rt, pack, root, text)?;
    let far = answered(rt, Remote::new(rt.alloc(), pack, &seen), root, text)?;
    assert!(rt; far == near, "{text}");
    assert_eq!(rt; seen.rounds.get(), rounds, "{text}");
    assert_eq!(rt; seen.sudden.get(), 2, "{text}");
    assert_eq!(rt; seen.again.get(), 0, "{text}");
    Ok(())
}

/// From the pack of many objects far away come the answers of the pack at hand, with a round for each level of the trees that a
/// query needs.
#[test]
fn takes_a_round_a_level(rt: HostRuntime) -> Result<(), Fail> {
    let snapshot = many_objects(rt.alloc())?;
    let [objects, tags, cells, _] = snapshot.manifest().tops;
    let objects = levels(rt.alloc(), &snapshot, &objects)?;
    let tags = levels(rt.alloc(), &snapshot, &tags)?;
    let cells = levels(rt.alloc(), &snapshot, &cells)?;
    assert!(rt; objects > 2);
    let pack = pack_of(rt.alloc(), snapshot.stock(), snapshot.root())?;
    for (text, rounds) in [
        ("node(1500);out;", objects),
        ("node(4000);out;", 1),
        ("node[k=7];out;", tags.saturating_add(objects)),
        ("node(10,20,30,40);out;", cells.saturating_add(objects)),
    ] {
        check_rounds(&rt, pack.as_slice(), snapshot.root(), text, rounds)?;
    }
    Ok(())
}

/// Where any read fails once there is the answer, or it is told that the device failed.
#[test]
fn tells_a_failed_read(rt: HostRuntime) -> Result<(), Fail> {
    let alloc = rt.alloc();
    for (text, expected) in ANSWERS {
        for before in 2..12 {
            let seen = Seen::new();
            let mut into = Vec::new(alloc);
            let mut remote = Remote::new(alloc, PACK, &seen);
            remote.before = Some(before);
            match answer(alloc, remote, &ROOT, text, &mut into)? {
                Ok(()) => assert_eq!(rt; into.as_slice(), expected.as_bytes(), "{text}"),
                Err(fault) => assert!(rt; fault == AnswerFault::Source(Refused::Device), "{text}"),
            }
        }
    }
    Ok(())
}

/// Run with each allocation refused in turn: the answer, or out of memory and then the answer.
#[test]
fn answers_from_afar_within_memory(rt: HostRuntime) -> Result<(), Fail> {
    let alloc = rt.alloc();
    let (text, expected) = ANSWERS[2];
    let seen = Seen::new();
    let mut into = Vec::new(alloc);
    let remote = Remote::new(alloc, PACK, &seen);
    if let Err(fault) = answer(alloc, remote, &ROOT, text, &mut into)? {
        let is_memory = fault == AnswerFault::Source(Refused::Memory)
            || fault == AnswerFault::Evaluation(EvalFault::Memory);
        assert!(rt; is_memory, "{fault}");
        assert_eq!(rt; into.len(), 0);
        let again = Remote::new(alloc, PACK, &seen);
        assert!(rt; answer(alloc, again, &ROOT, text, &mut into)?.is_ok());
    }
    assert_eq!(rt; into.as_slice(), expected.as_bytes());
    Ok(())
}
