//! Memory that is refused. Run with each allocation refused in turn: the whole result, or out of memory and then the
//! whole result.

use crate::tests::{snapshot_of, texts_of_sets};
use osm_index::Edition;
use osm_prove::{ProofFault, ProveFault, answer, prove, read_proof};
use std::process::Abort;
use std::test::Fail;

/// Whether two nodes are read.
fn check_read(rt: &(impl Abort + AllocGlobal), proof: &[u8]) -> Result<(), Fail> {
    match read_proof(rt.alloc(), proof) {
        Ok(parts) => assert_eq!(rt; parts.len(), 2),
        Err(fault) => {
            assert_eq!(rt; fault, ProofFault::Memory);
            let parts = read_proof(rt.alloc(), proof)?;
            assert_eq!(rt; parts.len(), 2);
        }
    }
    Ok(())
}

#[test]
fn refused_memory_is_told_and_then_all_is_given(rt: HostRuntime) -> Result<(), Fail> {
    let alloc = rt.alloc();
    let snapshot = snapshot_of(alloc, texts_of_sets::ALL_KINDS, Edition::One)?;
    let query = b"node[\"highway\"];out ids;";
    let proved = match prove(alloc, &snapshot, query) {
        Ok(proved) => proved,
        Err(fault) => {
            assert_eq!(rt; fault, ProveFault::Memory);
            prove(alloc, &snapshot, query)?
        }
    };
    assert_eq!(rt; proved.answer.as_slice(), b"n1\n".as_slice());
    check_read(&rt, &proved.proof)
}

#[test]
fn an_answer_alone_is_given_within_memory(rt: HostRuntime) -> Result<(), Fail> {
    let alloc = rt.alloc();
    let snapshot = snapshot_of(alloc, texts_of_sets::ALL_KINDS, Edition::One)?;
    let query = b"node[\"highway\"];out ids;";
    let answered = match answer(alloc, &snapshot, query) {
        Ok(answered) => answered,
        Err(fault) => {
            assert_eq!(rt; fault, ProveFault::Memory);
            answer(alloc, &snapshot, query)?
        }
    };
    assert_eq!(rt; answered.answer.as_slice(), b"n1\n".as_slice());
    Ok(())
}
