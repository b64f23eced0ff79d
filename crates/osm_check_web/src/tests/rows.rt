//! Right and spoiled answers, and what is told of them.

use crate::exports::osm_check_verdict;
use crate::tests::sets::proved;
use crate::told::{BAD_ROOT, NO, NO_MEMORY, Told, YES};
use std::alloc::Global;
use std::process::Abort;
use std::test::Fail;

const QUERY: &[u8] = b"node(1);out ids;";

const ANSWER: &[u8] = b"n1\n";

/// The status, and what is told in place of what was there.
fn judged(alloc: Global, query: &[u8], root: &[u8], answer: &[u8], proof: &[u8]) -> (u32, Told) {
    let mut told = Told {
        reason: 77,
        cause: 77,
        place: 77,
        ranges: 77,
        fetched: 77,
    };
    let status = osm_check_verdict(alloc, query, root, answer, proof, &mut told);
    (status, told)
}

/// Whether a no is told with this reason, cause and place.
fn check_no(
    rt: &impl Abort,
    (status, told): (u32, Told),
    reason: u32,
    cause: u32,
    place: u64,
) -> Result<(), Fail> {
    assert_eq!(rt; status, NO);
    let wanted = Told {
        reason,
        cause,
        place,
        ranges: 0,
        fetched: 0,
    };
    assert_eq!(rt; told, wanted);
    Ok(())
}

#[test]
fn a_right_answer_is_told(rt: HostRuntime) -> Result<(), Fail> {
    let alloc = rt.alloc();
    let right = proved(alloc, QUERY)?;
    assert_eq!(rt; right.answer.as_slice(), ANSWER);
    let (status, told) = judged(alloc, QUERY, &right.root.0, ANSWER, &right.proof);
    assert_eq!(rt; status, YES);
    // One look-up, in a tree that is one leaf.
    let wanted = Told {
        reason: 0,
        cause: 0,
        place: 0,
        ranges: 1,
        fetched: 1,
    };
    assert_eq!(rt; told, wanted);
    Ok(())
}

#[test]
fn wrong_answers_and_queries_are_told(rt: HostRuntime) -> Result<(), Fail> {
    let alloc = rt.alloc();
    let right = proved(alloc, QUERY)?;
    let (root, proof) = (&right.root.0, right.proof.as_slice());
    check_no(&rt, judged(alloc, QUERY, root, b"n2\n", proof), 9, 0, 1)?;
    check_no(&rt, judged(alloc, QUERY, root, b"n1\nn", proof), 9, 0, 3)?;
    check_no(&rt, judged(alloc, QUERY, root, b"", proof), 9, 0, 0)?;
    check_no(
        &rt,
        judged(alloc, b"node(1)", root, ANSWER, proof),
        1,
        11,
        7,
    )?;
    check_no(
        &rt,
        judged(alloc, b"node(1);foreach;", root, ANSWER, proof),
        1,
        7,
        8,
    )
}

#[test]
fn wrong_proofs_and_roots_are_told(rt: HostRuntime) -> Result<(), Fail> {
    let alloc = rt.alloc();
    let right = proved(alloc, QUERY)?;
    let (root, proof) = (&right.root.0, right.proof.as_slice());
    check_no(&rt, judged(alloc, QUERY, root, ANSWER, b""), 2, 0, 0)?;
    check_no(&rt, judged(alloc, QUERY, &[1; 32], ANSWER, proof), 4, 0, 0)?;
    // The empty query needs the manifest alone.
    check_no(&rt, judged(alloc, b"", root, b"", proof), 8, 0, 0)?;
    // The same node twice.
    let twice = b"OSMP\x01\0\0\0\x02\0\0\0\x01a\0\0\0\x01a";
    check_no(&rt, judged(alloc, QUERY, root, ANSWER, twice), 3, 0, 0)
}

#[test]
fn a_root_has_32_bytes(rt: HostRuntime) -> Result<(), Fail> {
    let alloc = rt.alloc();
    let right = proved(alloc, QUERY)?;
    let nothing = Told {
        reason: 0,
        cause: 0,
        place: 0,
        ranges: 0,
        fetched: 0,
    };
    for root in [&right.root.0[..31], &[0; 33], b""] {
        let (status, told) = judged(alloc, QUERY, root, ANSWER, &right.proof);
        assert_eq!(rt; status, BAD_ROOT);
        assert_eq!(rt; told, nothing);
    }
    Ok(())
}

/// Out of memory, of which nothing is told, or the whole verdict: also where an allocation is refused (tests/system).
#[test]
fn tells_within_memory(rt: HostRuntime) -> Result<(), Fail> {
    let alloc = rt.alloc();
    let right = proved(alloc, QUERY)?;
    let (first, told) = judged(alloc, QUERY, &right.root.0, ANSWER, &right.proof);
    assert!(rt;
        first == YES || first == NO_MEMORY && told.fetched == 0,
        "{first} {told:?}"
    );
    let (status, told) = judged(alloc, QUERY, &right.root.0, ANSWER, &right.proof);
    assert!(rt;
        status == YES || status == NO_MEMORY && told.fetched == 0,
        "{status} {told:?}"
    );
    Ok(())
}
