//! Bytes that are no proof, and queries that don't read.

use super::proved_over;
use crate::tests::{snapshot_of, texts_of_sets};
use osm_index::Edition;
use osm_prove::{ProofFault, prove, read_proof};
use std::alloc::Global;
use std::process::Abort;
use std::test::Fail;

/// A proof of two nodes.
fn two_nodes(alloc: Global) -> Result<Vec<u8>, Fail> {
    Ok(proved_over(alloc, texts_of_sets::ALL_KINDS, "node(1);out;")?.proof)
}

fn check_refused(
    rt: &(impl Abort + AllocGlobal),
    bytes: &[u8],
    fault: ProofFault,
) -> Result<(), Fail> {
    match read_proof(rt.alloc(), bytes) {
        Ok(_) => panic!(rt; "read as a proof"),
        Err(told) => assert_eq!(rt; told, fault),
    }
    Ok(())
}

#[test]
fn cut_and_lengthened_proofs_are_malformed(rt: HostRuntime) -> Result<(), Fail> {
    let mut proof = two_nodes(rt.alloc())?;
    for len in 0..proof.len() {
        if let Some(front) = proof.get(..len) {
            check_refused(&rt, front, ProofFault::Malformed)?;
        }
    }
    proof.push(0)?;
    check_refused(&rt, &proof, ProofFault::Malformed)
}

/// The number of nodes stands after five bytes, in four with the greatest first.
#[test]
fn another_number_of_nodes_is_malformed(rt: HostRuntime) -> Result<(), Fail> {
    for (place, byte) in [(8, 1), (8, 3), (5, 255), (4, 2), (3, b'p')] {
        let mut proof = two_nodes(rt.alloc())?;
        if let Some(there) = proof.get_mut(place) {
            *there = byte;
        }
        check_refused(&rt, &proof, ProofFault::Malformed)?;
    }
    check_refused(&rt, b"OSMP\x01\xff\xff\xff\xff", ProofFault::Malformed)
}

/// A proof that lists two nodes, each after its length.
fn listed(alloc: Global, first: &[u8], second: &[u8]) -> Result<Vec<u8>, Fail> {
    let mut proof = b"OSMP\x01\x00\x00\x00\x02".to_vec(alloc)?;
    proof.extend_from_slice(first)?;
    proof.extend_from_slice(second)?;
    Ok(proof)
}

/// Over no objects the nodes are the manifest and an empty leaf, of fewer than 256 bytes each.
#[test]
fn doubled_and_swapped_nodes_dont_rise(rt: HostRuntime) -> Result<(), Fail> {
    let alloc = rt.alloc();
    let proof = proved_over(alloc, "", "node(1);out;")?.proof;
    let Some((head, nodes)) = proof.split_at_checked(12) else {
        panic!(&rt; "a proof without nodes");
    };
    assert_eq!(rt; head, b"OSMP\x01\x00\x00\x00\x02\x00\x00\x00".as_slice());
    let len = nodes.first().map_or(0, |len| usize::from(*len));
    let Some((first, second)) = proof[9..].split_at_checked(4 + len) else {
        panic!(&rt; "a proof of one node");
    };
    assert_eq!(rt; listed(alloc, first, second)?.as_slice(), proof.as_slice());
    check_refused(&rt, &listed(alloc, first, first)?, ProofFault::NotRising)?;
    check_refused(&rt, &listed(alloc, second, first)?, ProofFault::NotRising)
}

#[test]
fn a_query_that_doesnt_read_is_told(rt: HostRuntime) -> Result<(), Fail> {
    let alloc = rt.alloc();
    let snapshot = snapshot_of(alloc, "", Edition::One)?;
    for (query, wanted) in [
        ("node[~\"a\"~\"b\"];out;", "Q7 byte 5"),
        ("node(1)", "Q11 byte 7"),
    ] {
        match prove(alloc, &snapshot, query.as_bytes()) {
            Ok(_) => panic!(&rt; "answered"),
            Err(fault) => {
                let text = format!(in alloc; "{fault}")?;
                assert_eq!(rt; text.as_str(), wanted);
            }
        }
    }
    Ok(())
}
