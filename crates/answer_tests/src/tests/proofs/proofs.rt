//! Proofs as an independent program made them.

use super::rows::Row;
use super::{larger_rows, proved_over, rows};
use crate::tests::{snapshot_of, texts_of_sets};
use opl_codec::read_set;
use osm_check::check;
use osm_index::{Edition, Snapshot};
use osm_model::ObjectSet;
use osm_prove::{Proved, answer, prove, read_proof, write_proof};
use ql_plain::answer_plain;
use ql_syntax::parse;
use std::alloc::Global;
use std::process::Abort;
use std::test::Fail;
use tree_node::digest_of;

/// Whether the answer is the plain one.
fn check_answer(
    rt: &(impl Abort + AllocGlobal),
    set: &ObjectSet,
    text: &str,
    answer: &[u8],
) -> Result<(), Fail> {
    let query = parse(rt.alloc(), text.as_bytes())?;
    let plain = answer_plain(rt.alloc(), &query, set)?;
    assert_eq!(rt; answer, plain.as_slice(), "{text}");
    Ok(())
}

/// Whether the proof is the one that is told, and its nodes are read and written again.
fn check_proof(
    rt: &(impl Abort + AllocGlobal),
    text: &str,
    proof: &[u8],
    told: &str,
) -> Result<(), Fail> {
    let alloc = rt.alloc();
    let parts = read_proof(alloc, proof)?;
    let again = write_proof(alloc, &parts)?;
    assert_eq!(rt; again.as_slice(), proof, "{text}");
    let nodes = parts.len();
    let bytes = proof.len();
    let digest = hex::encode(alloc, &digest_of(proof).0)?;
    let found = format!(in alloc; "{nodes} {bytes} {digest}")?;
    assert_eq!(rt; found.as_str(), told, "{text}");
    Ok(())
}

/// Whether the answer is the plain one, and its proof the one that is told.
fn check_row(
    rt: &(impl Abort + AllocGlobal),
    set: &ObjectSet,
    snapshot: &Snapshot,
    text: &str,
    told: &str,
) -> Result<(), Fail> {
    let proved = prove(rt.alloc(), snapshot, text.as_bytes())?;
    assert_eq!(rt; &proved.root, snapshot.root());
    check_answer(rt, set, text, &proved.answer)?;
    check_proof(rt, text, &proved.proof, told)
}

fn check_rows(rt: &(impl Abort + AllocGlobal), set: &str, rows: &[Row]) -> Result<(), Fail> {
    let objects = read_set(rt.alloc(), &mut set.as_bytes())?;
    check_edition(rt, &objects, set, Edition::One, rows)?;
    check_edition(rt, &objects, set, Edition::Two { sequence: 7 }, rows)
}

/// Whether the rows hold over the trees of the set in this edition.
fn check_edition(
    rt: &(impl Abort + AllocGlobal),
    objects: &ObjectSet,
    set: &str,
    edition: Edition,
    rows: &[Row],
) -> Result<(), Fail> {
    let snapshot = snapshot_of(rt.alloc(), set, edition)?;
    for (text, told, told_later) in rows {
        let told = match edition {
            Edition::One => told,
            Edition::Two { .. } => told_later,
        };
        check_row(rt, objects, &snapshot, text, told)?;
    }
    Ok(())
}

#[test]
fn proofs_are_those_of_the_rows(rt: HostRuntime) -> Result<(), Fail> {
    check_rows(&rt, "", &rows::OVER_EMPTY)?;
    check_rows(&rt, texts_of_sets::ALL_KINDS, &rows::OVER_ALL_KINDS)?;
    check_rows(&rt, texts_of_sets::DATELINE, &rows::OVER_DATELINE)?;
    check_rows(&rt, texts_of_sets::ONE, &rows::OVER_ONE)?;
    check_rows(&rt, texts_of_sets::TOWN, &larger_rows::OVER_TOWN)?;
    check_rows(&rt, texts_of_sets::MANY, &larger_rows::OVER_MANY)
}

/// The manifest, the top of the objects and a leaf under it; no leaf where the id is above all keys. Each is checked.
#[test]
fn only_the_leaf_that_is_met_is_listed(rt: HostRuntime) -> Result<(), Fail> {
    let alloc = rt.alloc();
    let set = texts_of_sets::sixty_five(alloc)?;
    let rows = [
        ("node(64);out ids;", "n64\n", 3),
        ("node(65);out ids;", "n65\n", 3),
        ("node(66);out ids;", "", 2),
    ];
    for (query, answer, nodes) in rows {
        let proved = proved_over(alloc, set.as_str(), query)?;
        assert_eq!(rt; proved.answer.as_slice(), answer.as_bytes());
        let parts = read_proof(alloc, &proved.proof)?;
        assert_eq!(rt; parts.len(), nodes);
        check_yes(&rt, query, &proved)?;
    }
    Ok(())
}

/// Whether the checker says yes to what was proved.
fn check_yes(rt: &(impl Abort + AllocGlobal), query: &str, proved: &Proved) -> Result<(), Fail> {
    let verdict = check(
        rt.alloc(),
        query.as_bytes(),
        &proved.root,
        &proved.answer,
        &proved.proof,
    )?;
    let told = format!(in rt.alloc(); "{verdict}")?;
    assert_eq!(rt; told.as_str(), "yes", "{query}");
    Ok(())
}

/// The same answers, under the root of the snapshot.
#[test]
fn answers_come_without_their_proofs(rt: HostRuntime) -> Result<(), Fail> {
    let alloc = rt.alloc();
    let set = texts_of_sets::sixty_five(alloc)?;
    let snapshot = snapshot_of(alloc, set.as_str(), Edition::One)?;
    for (query, wanted) in [("node(64);out ids;", "n64\n"), ("node(66);out ids;", "")] {
        let answered = answer(alloc, &snapshot, query.as_bytes())?;
        assert_eq!(rt; &answered.root, snapshot.root());
        assert_eq!(rt; answered.answer.as_slice(), wanted.as_bytes());
    }
    Ok(())
}
