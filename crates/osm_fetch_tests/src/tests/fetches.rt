//! The command.

use super::fake_dial::FakeDial;
use super::mirrors::{BY_TAG, JSON, OPL, QUERY, XML, proved, response};
use mirror_answer::MirrorFault;
use mirror_reply::ReplyFault;
use osm_check::Why;
use osm_commands::Status;
use osm_fetch::{NotFetched, fetch};
use osm_forms::Form;
use ql_syntax::{QlCause, QlFault};
use std::test::Fail;
use tree_node::Digest;

const LIMIT: u64 = 10_000;

#[test]
fn each_form_within_memory(rt: HostRuntime) -> Result<(), Fail> {
    let alloc = rt.alloc();
    let right = proved(alloc, QUERY)?;
    let bytes = response(alloc, &right.root.0, &right.answer, &right.proof)?;
    for (form, want) in [(Form::Opl, OPL), (Form::Json, JSON), (Form::Xml, XML)] {
        let mut output = Vec::new(alloc);
        let mut dial = FakeDial::new(&bytes, 100, 0);
        let query = QUERY.as_bytes();
        let first = fetch(
            alloc,
            form,
            &right.root,
            "mirror",
            query,
            LIMIT,
            None,
            &mut dial,
            &mut output,
        );
        if first == Err(NotFetched::Memory) {
            assert!(rt; output.is_empty());
            dial = FakeDial::new(&bytes, 100, 0);
            fetch(
                alloc,
                form,
                &right.root,
                "mirror",
                query,
                LIMIT,
                None,
                &mut dial,
                &mut output,
            )?;
        } else {
            first?;
        }
        assert!(rt; output.as_slice() == want.as_bytes());
    }
    Ok(())
}

/// What the mirror gives as the answer doesn't matter: the proof shows it.
#[test]
fn lies_about_the_answer(rt: HostRuntime) -> Result<(), Fail> {
    let alloc = rt.alloc();
    let right = proved(alloc, QUERY)?;
    let bytes = response(alloc, &right.root.0, b"n1 x0 y0\n", &right.proof)?;
    let mut output = Vec::new(alloc);
    let mut dial = FakeDial::new(&bytes, 1, 0);
    let query = QUERY.as_bytes();
    fetch(
        alloc,
        Form::Opl,
        &right.root,
        "mirror",
        query,
        LIMIT,
        None,
        &mut dial,
        &mut output,
    )?;
    assert!(rt; output.as_slice() == OPL.as_bytes());
    Ok(())
}

#[test]
fn refusals(rt: HostRuntime) -> Result<(), Fail> {
    let alloc = rt.alloc();
    let right = proved(alloc, QUERY)?;
    // It needs a node of the tree of tags beside those that the query needs.
    let other = proved(alloc, BY_TAG)?;
    let root = right.root.0.as_slice();
    let wrong = response(alloc, root, &right.answer, &other.proof)?;
    let cut = response(
        alloc,
        root,
        &right.answer,
        right.proof.get(1..).unwrap_or(b""),
    )?;
    let elsewhere = response(alloc, &[7; 32], &right.answer, &other.proof)?;
    let rows = [
        (
            wrong.as_slice(),
            LIMIT,
            MirrorFault::Proof(Why::NodeUnused),
            Status::No,
        ),
        (
            cut.as_slice(),
            LIMIT,
            MirrorFault::Proof(Why::ProofMalformed),
            Status::No,
        ),
        (
            elsewhere.as_slice(),
            LIMIT,
            MirrorFault::OtherRoot,
            Status::No,
        ),
        (
            wrong.as_slice(),
            40,
            MirrorFault::Reply(ReplyFault::TooLong),
            Status::Failed,
        ),
        (
            b"".as_slice(),
            LIMIT,
            MirrorFault::Reply(ReplyFault::ClosedEarly),
            Status::Failed,
        ),
    ];
    for (bytes, limit, fault, status) in rows {
        let mut output = Vec::new(alloc);
        let mut dial = FakeDial::new(bytes, 100, 0);
        let query = QUERY.as_bytes();
        let told = fetch(
            alloc,
            Form::Xml,
            &right.root,
            "mirror",
            query,
            limit,
            None,
            &mut dial,
            &mut output,
        );
        assert_eq!(rt; told, Err(NotFetched::Mirror(fault)));
        assert_eq!(rt; NotFetched::Mirror(fault).status(), status);
        assert!(rt; output.is_empty());
    }
    Ok(())
}

/// The work of the query in OPL, by hand: seven steps of 100, and the 33 bytes of the line. The steps are the filter and the
/// id that it reads, the candidate, the statement and the node that it finds, the object that is printed, and the statement
/// that prints it.
#[test]
fn keeps_a_budget(rt: HostRuntime) -> Result<(), Fail> {
    let alloc = rt.alloc();
    let right = proved(alloc, QUERY)?;
    let bytes = response(alloc, &right.root.0, &right.answer, &right.proof)?;
    let passed = NotFetched::Mirror(MirrorFault::Work);
    assert_eq!(rt; passed.status(), Status::Failed);
    for (most, told, want) in [(733, Ok(()), OPL), (732, Err(passed), "")] {
        let mut output = Vec::new(alloc);
        let mut dial = FakeDial::new(&bytes, 100, 0);
        let query = QUERY.as_bytes();
        let result = fetch(
            alloc,
            Form::Opl,
            &right.root,
            "mirror",
            query,
            LIMIT,
            Some(most),
            &mut dial,
            &mut output,
        );
        assert_eq!(rt; result, told);
        assert!(rt; output.as_slice() == want.as_bytes());
    }
    Ok(())
}

/// Nobody is asked for a query that doesn't read, nor by a name that can't stand in a request.
#[test]
fn nobody_is_asked(rt: HostRuntime) -> Result<(), Fail> {
    let alloc = rt.alloc();
    let root = Digest([0; 32]);
    let unread = QlFault {
        cause: QlCause::UnexpectedWord,
        byte: 7,
    };
    for (host, query, fault) in [
        ("mirror", "node(1)out;", NotFetched::Query(unread)),
        (
            "two words",
            QUERY,
            NotFetched::Mirror(MirrorFault::Unreached),
        ),
        ("", QUERY, NotFetched::Mirror(MirrorFault::Unreached)),
    ] {
        let mut output = Vec::new(alloc);
        let mut dial = FakeDial::new(b"", 100, 0);
        let bytes = query.as_bytes();
        let told = fetch(
            alloc,
            Form::Opl,
            &root,
            host,
            bytes,
            LIMIT,
            None,
            &mut dial,
            &mut output,
        );
        assert_eq!(rt; told, Err(fault));
        assert!(rt; dial.calls == 0 && output.is_empty());
    }
    Ok(())
}

/// Each call of the dial fails in turn: the first opens, two send the 133 bytes of the request.
#[test]
fn each_call_fails(rt: HostRuntime) -> Result<(), Fail> {
    let alloc = rt.alloc();
    let right = proved(alloc, QUERY)?;
    let bytes = response(alloc, &right.root.0, &right.answer, &right.proof)?;
    for call in 1..6 {
        let mut output = Vec::new(alloc);
        let mut dial = FakeDial::new(&bytes, 100, call);
        let query = QUERY.as_bytes();
        let told = fetch(
            alloc,
            Form::Opl,
            &right.root,
            "mirror",
            query,
            LIMIT,
            None,
            &mut dial,
            &mut output,
        );
        let fault = if call == 1 {
            MirrorFault::Unreached
        } else {
            MirrorFault::Silent
        };
        assert_eq!(rt; told, Err(NotFetched::Mirror(fault)));
        assert!(rt; dial.calls == call && output.is_empty());
    }
    Ok(())
}
