//! Verdicts within a budget, and none with one that is one less.

use crate::tests::work_rows::WORK_ROWS;
use crate::tests::{snapshot_of, texts_of_sets};
use osm_check::{CheckFault, Digest, Told, Verdict, Why, check_within, tell_within};
use osm_forms::Form;
use osm_index::Edition;
use osm_prove::{Proved, prove};
use std::process::Abort;
use std::test::Fail;

#[test]
fn within_a_budget_verdicts_are_given(rt: HostRuntime) -> Result<(), Fail> {
    let alloc = rt.alloc();
    let snapshot = snapshot_of(alloc, texts_of_sets::ALL_KINDS, Edition::One)?;
    for (query, work) in &WORK_ROWS {
        let query = query.as_bytes();
        let proved = prove(alloc, &snapshot, query)?;
        check_work(&rt, query, &proved, *work)?;
        let less = work.checked_sub(1);
        let Proved {
            root,
            answer,
            proof,
        } = &proved;
        let verdict = check_within(alloc, query, root, answer, proof, less);
        assert_eq!(rt; verdict, Err(CheckFault::Work));
        let told = tell_within(alloc, Form::Opl, query, root, proof, less);
        assert_eq!(rt; told.err(), Some(CheckFault::Work));
    }
    Ok(())
}

/// Whether the answer is right and told within just this budget, and the report has the work.
fn check_work(
    rt: &(impl Abort + AllocGlobal),
    query: &[u8],
    proved: &Proved,
    work: u64,
) -> Result<(), Fail> {
    let alloc = rt.alloc();
    let root = &proved.root;
    match check_within(
        alloc,
        query,
        root,
        &proved.answer,
        &proved.proof,
        Some(work),
    )? {
        Verdict::Yes(report) => assert_eq!(rt; report.work, work),
        Verdict::No(why) => return Err(Fail::from(format!(in alloc; "no {why}")?)),
    }
    match tell_within(alloc, Form::Opl, query, root, &proved.proof, Some(work))? {
        Told::Answer { text, report } => {
            assert_eq!(rt; report.work, work);
            assert_eq!(rt; text.as_slice(), proved.answer.as_slice());
        }
        Told::No(why) => return Err(Fail::from(format!(in alloc; "no {why}")?)),
    }
    Ok(())
}

#[test]
fn query_and_proof_are_read_before_a_budget_matters(rt: HostRuntime) -> Result<(), Fail> {
    let alloc = rt.alloc();
    let root = Digest([0; 32]);
    let verdict = check_within(alloc, b"node;out", &root, b"", b"", Some(0))?;
    assert!(rt; matches!(verdict, Verdict::No(Why::QueryRefused(_))));
    let verdict = check_within(alloc, b"node;out;", &root, b"", b"", Some(0))?;
    assert_eq!(rt; verdict, Verdict::No(Why::ProofMalformed));
    Ok(())
}
