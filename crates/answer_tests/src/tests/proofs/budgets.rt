//! Answers and proofs within a budget, and what is refused with one that is one less.

use crate::tests::work_rows::WORK_ROWS;
use crate::tests::{snapshot_of, texts_of_sets};
use osm_index::{Edition, Snapshot};
use osm_prove::{ProveFault, answer, answer_within, prove, prove_within};
use std::process::Abort;
use std::test::Fail;

#[test]
fn within_a_budget_all_is_given(rt: HostRuntime) -> Result<(), Fail> {
    let alloc = rt.alloc();
    let snapshot = snapshot_of(
        alloc,
        texts_of_sets::ALL_KINDS,
        Edition::Two { sequence: 7 },
    )?;
    for (query, work) in &WORK_ROWS {
        let query = query.as_bytes();
        let proved = prove_within(alloc, &snapshot, query, Some(*work))?;
        let wanted = prove(alloc, &snapshot, query)?;
        assert_eq!(rt; proved.answer.as_slice(), wanted.answer.as_slice());
        assert_eq!(rt; proved.proof.as_slice(), wanted.proof.as_slice());
        let answered = answer_within(alloc, &snapshot, query, Some(*work))?;
        let wanted = answer(alloc, &snapshot, query)?;
        assert_eq!(rt; answered.answer.as_slice(), wanted.answer.as_slice());
        check_passed(&rt, &snapshot, query, work.checked_sub(1))?;
    }
    Ok(())
}

/// Whether a query passes this budget.
fn check_passed(
    rt: &(impl Abort + AllocGlobal),
    snapshot: &Snapshot,
    query: &[u8],
    most: Option<u64>,
) -> Result<(), Fail> {
    let proved = prove_within(rt.alloc(), snapshot, query, most);
    assert_eq!(rt; proved.err(), Some(ProveFault::Work));
    let answered = answer_within(rt.alloc(), snapshot, query, most);
    assert_eq!(rt; answered.err(), Some(ProveFault::Work));
    Ok(())
}

#[test]
fn a_query_that_does_not_read_is_refused_as_such(rt: HostRuntime) -> Result<(), Fail> {
    let alloc = rt.alloc();
    let snapshot = snapshot_of(alloc, texts_of_sets::ALL_KINDS, Edition::One)?;
    let wanted = prove(alloc, &snapshot, b"node;out").err();
    assert!(rt; matches!(wanted, Some(ProveFault::Query(_))));
    let proved = prove_within(alloc, &snapshot, b"node;out", Some(0));
    assert_eq!(rt; proved.err(), wanted);
    Ok(())
}
