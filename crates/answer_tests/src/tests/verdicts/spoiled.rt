//! A right proof, spoiled in every way: that of `node(65);out;` over the nodes 1 to 65 in the first edition.

use super::{check_told, flip, proof_of};
use crate::tests::{snapshot_of, texts_of_sets};
use osm_check::{Verdict, check};
use osm_index::{Edition, Snapshot};
use osm_prove::{Proved, prove, read_proof};
use std::alloc::Global;
use std::process::Abort;
use std::test::Fail;
use tree_node::{Digest, Part};

const QUERY: &[u8] = b"node(65);out;";

const ANSWER: &[u8] = b"n65 T x0 y0\n";

fn snapshot_of_65(alloc: Global) -> Result<Snapshot, Fail> {
    let text = texts_of_sets::sixty_five(alloc)?;
    snapshot_of(alloc, text.as_str(), Edition::One)
}

fn right(alloc: Global) -> Result<Proved, Fail> {
    Ok(prove(alloc, &snapshot_of_65(alloc)?, QUERY)?)
}

#[test]
fn it_is_right_as_it_is(rt: HostRuntime) -> Result<(), Fail> {
    let alloc = rt.alloc();
    let Proved {
        root,
        answer,
        proof,
    } = right(alloc)?;
    assert_eq!(rt; answer.as_slice(), ANSWER);
    assert_eq!(rt; read_proof(alloc, &proof)?.len(), 3);
    let verdict = check(alloc, QUERY, &root, &answer, &proof)?;
    let is_yes = matches!(verdict, Verdict::Yes(report) if report.fetched >= 2);
    assert!(rt; is_yes, "{verdict:?}");
    Ok(())
}

/// Which of the proof's three nodes a spoiled one lists, in which order, and what is told of it: each is left out, each
/// is doubled, and each pair is swapped.
const OTHER_LISTS: [(&[usize], &str); 9] = [
    (&[1, 2], "no C4"),
    (&[0, 2], "no C4"),
    (&[0, 1], "no C4"),
    (&[0, 0, 1, 2], "no C3"),
    (&[0, 1, 1, 2], "no C3"),
    (&[0, 1, 2, 2], "no C3"),
    (&[1, 0, 2], "no C3"),
    (&[2, 1, 0], "no C3"),
    (&[0, 2, 1], "no C3"),
];

/// A proof that lists the parts at these places.
fn listing(alloc: Global, parts: &[Part<'_>], places: &[usize]) -> Result<Vec<u8>, Fail> {
    let mut nodes = Vec::new(alloc);
    for place in places {
        nodes.push(parts.get(*place).ok_or("no such part")?.bytes())?;
    }
    proof_of(alloc, &nodes)
}

#[test]
fn nodes_are_left_out_doubled_and_swapped(rt: HostRuntime) -> Result<(), Fail> {
    let alloc = rt.alloc();
    let Proved { root, proof, .. } = right(alloc)?;
    let parts = read_proof(alloc, &proof)?;
    for (places, wanted) in OTHER_LISTS {
        let spoiled = listing(alloc, &parts, places)?;
        check_told(&rt, QUERY, &root, ANSWER, &spoiled, wanted)?;
    }
    Ok(())
}

/// The leaf of the first 64 nodes, which another query needs, is added in its place.
#[test]
fn a_node_is_added(rt: HostRuntime) -> Result<(), Fail> {
    let alloc = rt.alloc();
    let snapshot = snapshot_of_65(alloc)?;
    let Proved { root, proof, .. } = prove(alloc, &snapshot, QUERY)?;
    let other = prove(alloc, &snapshot, b"node(64);node(65);out;")?;
    let nodes = read_proof(alloc, &other.proof)?.len();
    assert_eq!(rt; nodes, 4);
    assert!(rt; proof.len() < other.proof.len());
    check_told(&rt, QUERY, &root, ANSWER, &other.proof, "no C8")
}

#[test]
fn the_proof_is_cut_and_longer(rt: HostRuntime) -> Result<(), Fail> {
    let alloc = rt.alloc();
    let Proved {
        root,
        mut proof,
        ..
    } = right(alloc)?;
    for len in 0..proof.len() {
        check_told(&rt, QUERY, &root, ANSWER, &proof[..len], "no C2")?;
    }
    proof.push(0)?;
    check_told(&rt, QUERY, &root, ANSWER, &proof, "no C2")
}

#[test]
fn no_bit_of_the_proof_can_be_another(rt: HostRuntime) -> Result<(), Fail> {
    let alloc = rt.alloc();
    let Proved {
        root,
        mut proof,
        ..
    } = right(alloc)?;
    for bit in 0..proof.len().saturating_mul(8) {
        flip(&mut proof, bit);
        let verdict = check(alloc, QUERY, &root, ANSWER, &proof)?;
        assert!(rt; matches!(verdict, Verdict::No(_)), "bit {bit}");
        flip(&mut proof, bit);
    }
    Ok(())
}

#[test]
fn no_bit_of_the_root_can_be_another(rt: HostRuntime) -> Result<(), Fail> {
    let alloc = rt.alloc();
    let Proved { root, proof, .. } = right(alloc)?;
    for bit in 0..256 {
        let mut bytes = root.0;
        flip(&mut bytes, bit);
        check_told(&rt, QUERY, &Digest(bytes), ANSWER, &proof, "no C4")?;
    }
    Ok(())
}

/// The top of the objects, an inner node, is no manifest.
#[test]
fn the_root_is_that_of_a_tree(rt: HostRuntime) -> Result<(), Fail> {
    let alloc = rt.alloc();
    let Proved { proof, .. } = right(alloc)?;
    let parts = read_proof(alloc, &proof)?;
    let mut tops = parts
        .iter()
        .filter(|part| part.bytes().starts_with(b"\x01\x01"));
    let top = tops.next().ok_or("no inner node")?.digest();
    check_told(&rt, QUERY, &top, ANSWER, &proof, "no C5")
}

/// Whether the answer is told to differ from this place on.
fn check_differs(
    rt: &(impl Abort + AllocGlobal),
    root: &Digest,
    answer: &[u8],
    proof: &[u8],
    place: usize,
) -> Result<(), Fail> {
    let wanted = format!(in rt.alloc(); "no C9 {place}")?;
    check_told(rt, QUERY, root, answer, proof, wanted.as_str())
}

#[test]
fn the_answer_differs(rt: HostRuntime) -> Result<(), Fail> {
    let alloc = rt.alloc();
    let Proved {
        root,
        mut answer,
        proof,
    } = right(alloc)?;
    for place in 0..answer.len() {
        check_differs(&rt, &root, &answer[..place], &proof, place)?;
        flip(&mut answer, place.saturating_mul(8));
        check_differs(&rt, &root, &answer, &proof, place)?;
        flip(&mut answer, place.saturating_mul(8));
    }
    answer.push(b'\n')?;
    check_differs(&rt, &root, &answer, &proof, 12)
}
