//! The answers from files that are read as one.

use super::failing_pack::FailingPack;
use super::four_objects::{PACK, ROOT};
use super::querying::{ANSWERS, NO_LIMITS, QUERY};
use command_devices::PlacingWriter;
use node_pack::{PackFault, Place, ReadAt};
use osm_forms::Form;
use osm_packs::{NotAnswered, query_files};
use outside_shelf::Refused;
use ql_syntax::{QlCause, QlFault};
use std::alloc::Global;
use std::test::Fail;
use test_devices::Stop;
use tree_node::Digest;

/// Where the record of the manifest stands in the pack of the four objects: after the header, with four bytes of its length, the
/// 141 bytes of the manifest and four places.
const MANIFEST: Place = Place { at: 60, len: 193 };

/// What is told of a query over files whose head states a root, and what is written.
fn told<F: ReadAt + Drop>(
    alloc: Global,
    text: &str,
    files: F,
    stated: &Digest,
    output: &mut Vec<u8>,
) -> Result<(), NotAnswered> {
    let text = text.as_bytes();
    query_files(
        alloc,
        Form::Opl,
        &ROOT,
        text,
        NO_LIMITS,
        files,
        stated,
        MANIFEST,
        output,
    )
}

#[test]
fn answers_from_files(rt: HostRuntime) -> Result<(), Fail> {
    let alloc = rt.alloc();
    for (text, want) in ANSWERS {
        let mut output = Vec::new(alloc);
        told(alloc, text, PACK, &ROOT, &mut output)?;
        assert_eq!(rt; output.as_slice(), want.as_bytes(), "{text}");
    }
    Ok(())
}

/// Out of memory nothing is written, and the same call may be made again.
#[test]
fn answers_from_files_within_memory(rt: HostRuntime) -> Result<(), Fail> {
    let alloc = rt.alloc();
    let mut output = Vec::new(alloc);
    let first = told(alloc, QUERY, PACK, &ROOT, &mut output);
    if first == Err(NotAnswered::Memory) {
        assert!(rt; output.is_empty());
        told(alloc, QUERY, PACK, &ROOT, &mut output)?;
    } else {
        first?;
    }
    assert_eq!(rt; output.as_slice(), ANSWERS[0].1.as_bytes());
    Ok(())
}

/// The query is looked at first, then the root that is stated, then the files: the first call asks for the size, the second reads
/// the manifest, the third the leaf.
#[test]
fn refuses_files_in_order(rt: HostRuntime) -> Result<(), Fail> {
    let alloc = rt.alloc();
    let other = Digest([0; 32]);
    let unread = NotAnswered::Query(QlFault {
        cause: QlCause::UnexpectedWord,
        byte: 7,
    });
    for (text, stated, call, want) in [
        ("node(1)out;", &other, 1, Err(unread)),
        (QUERY, &other, 1, Err(NotAnswered::OtherRoot)),
        (QUERY, &ROOT, 1, Err(NotAnswered::Pack(PackFault::Device))),
        (QUERY, &ROOT, 2, Err(NotAnswered::Node(Refused::Device))),
        (QUERY, &ROOT, 3, Err(NotAnswered::Node(Refused::Device))),
        (QUERY, &ROOT, 4, Ok(())),
    ] {
        let mut output = Vec::new(alloc);
        let files = FailingPack::new(call);
        let told = told(alloc, text, files, stated, &mut output);
        assert_eq!(rt; told, want, "{text} {call}");
        assert!(rt; told.is_ok() || output.is_empty());
    }
    Ok(())
}

/// A byte of the manifest is turned: it has another digest.
#[test]
fn refuses_another_manifest(rt: HostRuntime) -> Result<(), Fail> {
    let alloc = rt.alloc();
    let mut pack = PACK.to_vec(alloc)?;
    pack.as_mut_slice()[70] ^= 1;
    let mut output = Vec::new(alloc);
    let told = told(alloc, QUERY, pack.as_slice(), &ROOT, &mut output);
    assert_eq!(rt; told, Err(NotAnswered::Node(Refused::Other)));
    assert!(rt; output.is_empty());
    Ok(())
}

/// A write fails: a beginning of the answer is written.
#[test]
fn a_write_of_an_answer_from_files_fails(rt: HostRuntime) -> Result<(), Fail> {
    let alloc = rt.alloc();
    let mut output = PlacingWriter::new(alloc, 3, Stop::Fails, false);
    let told = query_files(
        alloc,
        Form::Opl,
        &ROOT,
        QUERY.as_bytes(),
        NO_LIMITS,
        PACK,
        &ROOT,
        MANIFEST,
        &mut output,
    );
    assert_eq!(rt; told, Err(NotAnswered::Device));
    assert!(rt; output.writer.taken.as_slice() == &ANSWERS[0].1.as_bytes()[..20]);
    Ok(())
}
