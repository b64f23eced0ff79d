//! The command `query`.

use super::failing_pack::FailingPack;
use super::four_objects::{PACK, ROOT};
use command_devices::PlacingWriter;
use node_pack::PackFault;
use osm_commands::Status;
use osm_forms::Form;
use osm_packs::{Limits, NotAnswered, query};
use outside_shelf::Refused;
use ql_syntax::{QlCause, QlFault};
use std::alloc::Global;
use std::test::Fail;
use test_devices::Stop;
use tree_node::Digest;

pub(super) const NO_LIMITS: Limits = Limits {
    bytes: None,
    work: None,
};

pub(super) const QUERY: &str = "node(1);out;";

/// Queries and their answers, as docs/FORMATS.md works them out.
pub(super) const ANSWERS: [(&str, &str); 5] = [
    (QUERY, "n1 Thighway=crossing x13.4 y52.5\n"),
    (
        "node(2);out meta;",
        "n2 v0 dV c0 t i0 u T x13.4000001 y52.5\n",
    ),
    ("node(2);<;out ids;", "w10\nr100\n"),
    (
        "node(52.49999999999,13.40000004,52.6,13.5);out ids;",
        "n2\n",
    ),
    ("rel(100);node(r);out ids;", ""),
];

#[test]
fn answers(rt: HostRuntime) -> Result<(), Fail> {
    let alloc = rt.alloc();
    for (text, want) in ANSWERS {
        let mut output = Vec::new(alloc);
        let bytes = text.as_bytes();
        query(alloc, Form::Opl, &ROOT, bytes, NO_LIMITS, PACK, &mut output)?;
        assert_eq!(rt; output.as_slice(), want.as_bytes(), "{text}");
    }
    Ok(())
}

/// Out of memory nothing is written, and the same call may be made again.
#[test]
fn answers_within_memory(rt: HostRuntime) -> Result<(), Fail> {
    let alloc = rt.alloc();
    let mut output = Vec::new(alloc);
    let text = QUERY.as_bytes();
    let first = query(alloc, Form::Opl, &ROOT, text, NO_LIMITS, PACK, &mut output);
    if first == Err(NotAnswered::Memory) {
        assert!(rt; output.is_empty());
        query(alloc, Form::Opl, &ROOT, text, NO_LIMITS, PACK, &mut output)?;
    } else {
        first?;
    }
    assert_eq!(rt; output.as_slice(), ANSWERS[0].1.as_bytes());
    Ok(())
}

/// What is told of the query over a pack, and that nothing is written.
fn told(
    alloc: Global,
    root: &Digest,
    text: &str,
    limits: Limits,
    pack: &[u8],
) -> Result<(), NotAnswered> {
    let mut output = Vec::new(alloc);
    let bytes = text.as_bytes();
    let told = query(alloc, Form::Opl, root, bytes, limits, pack, &mut output);
    if output.is_empty() { told } else { Ok(()) }
}

/// The query is looked at first, then the pack, its root and its nodes.
#[test]
fn refuses_in_order(rt: HostRuntime) -> Result<(), Fail> {
    let alloc = rt.alloc();
    let other = Digest([0; 32]);
    let unread = NotAnswered::Query(QlFault {
        cause: QlCause::UnexpectedWord,
        byte: 7,
    });
    let cut = &PACK[..PACK.len() - 1];
    for (root, text, pack, fault, status) in [
        (&other, "node(1)out;", cut, unread, Status::Refused),
        (
            &other,
            QUERY,
            cut,
            NotAnswered::Pack(PackFault::Cut),
            Status::Refused,
        ),
        (
            &other,
            QUERY,
            b"n1 x1 y1\n".as_slice(),
            NotAnswered::Pack(PackFault::NotAPack),
            Status::Refused,
        ),
        (&other, QUERY, PACK, NotAnswered::OtherRoot, Status::No),
    ] {
        let told = told(alloc, root, text, NO_LIMITS, pack);
        assert_eq!(rt; told, Err(fault));
        assert_eq!(rt; fault.status(), status);
    }
    Ok(())
}

/// Each byte of the nodes is turned in turn: the answer is the right one, or there is none.
#[test]
fn a_damaged_pack_gives_no_wrong_answer(rt: HostRuntime) -> Result<(), Fail> {
    let alloc = rt.alloc();
    for at in 60..PACK.len() {
        let mut pack = PACK.to_vec(alloc)?;
        if let Some(byte) = pack.as_mut_slice().get_mut(at) {
            *byte ^= 0x10;
        }
        let mut output = Vec::new(alloc);
        let text = QUERY.as_bytes();
        let pack = pack.as_slice();
        match query(alloc, Form::Opl, &ROOT, text, NO_LIMITS, pack, &mut output) {
            Ok(()) => assert_eq!(rt; output.as_slice(), ANSWERS[0].1.as_bytes(), "{at}"),
            Err(fault) => {
                assert!(rt; output.is_empty());
                let is_of_a_node = fault == NotAnswered::Node(Refused::Other)
                    || fault == NotAnswered::Node(Refused::Absent)
                    || fault == NotAnswered::Node(Refused::Device);
                assert!(rt; is_of_a_node, "{at}: {fault}");
            }
        }
    }
    Ok(())
}

/// The line of `n1` has a node of the tree of objects: turned, it has another digest.
#[test]
fn refuses_other_bytes(rt: HostRuntime) -> Result<(), Fail> {
    let alloc = rt.alloc();
    let mut pack = PACK.to_vec(alloc)?;
    let Some(at) = PACK
        .windows(10)
        .position(|bytes| bytes == b"n1 v1 dV c".as_slice())
    else {
        panic!(rt; "the line isn't in the pack");
    };
    pack.as_mut_slice()[at + 4] = b'2';
    let fault = NotAnswered::Node(Refused::Other);
    let told = told(alloc, &ROOT, QUERY, NO_LIMITS, pack.as_slice());
    assert_eq!(rt; told, Err(fault));
    assert_eq!(rt; fault.status(), Status::No);
    Ok(())
}

/// The manifest of 141 bytes and the leaf of 289 bytes are read. The work is that of docs/FORMATS.md: seven steps of 100, and
/// the 33 bytes of the line.
#[test]
fn keeps_limits(rt: HostRuntime) -> Result<(), Fail> {
    let alloc = rt.alloc();
    let too_many = NotAnswered::Node(Refused::TooMany);
    for (bytes, work, want) in [
        (430, 733, Ok(())),
        (429, 733, Err(too_many)),
        (140, 733, Err(too_many)),
        (430, 732, Err(NotAnswered::Work)),
        (430, 0, Err(NotAnswered::Work)),
    ] {
        let limits = Limits {
            bytes: Some(bytes),
            work: Some(work),
        };
        let mut output = Vec::new(alloc);
        let text = QUERY.as_bytes();
        let told = query(alloc, Form::Opl, &ROOT, text, limits, PACK, &mut output);
        assert_eq!(rt; told, want, "{bytes} {work}");
        assert!(rt; told.is_ok() || output.is_empty());
    }
    assert_eq!(rt; too_many.status(), Status::Failed);
    assert_eq!(rt; NotAnswered::Work.status(), Status::Failed);
    Ok(())
}

/// Each call of the device fails in turn: the first asks for the size, the second reads the header, the third the manifest,
/// the fourth the leaf.
#[test]
fn each_read_fails(rt: HostRuntime) -> Result<(), Fail> {
    let alloc = rt.alloc();
    for (call, want) in [
        (1, Err(NotAnswered::Pack(PackFault::Device))),
        (2, Err(NotAnswered::Pack(PackFault::Device))),
        (3, Err(NotAnswered::Node(Refused::Device))),
        (4, Err(NotAnswered::Node(Refused::Device))),
        (5, Ok(())),
    ] {
        let mut output = Vec::new(alloc);
        let text = QUERY.as_bytes();
        let pack = FailingPack::new(call);
        let told = query(alloc, Form::Opl, &ROOT, text, NO_LIMITS, pack, &mut output);
        assert_eq!(rt; told, want, "{call}");
        assert!(rt; told.is_ok() || output.is_empty());
        if let Err(fault) = told {
            assert_eq!(rt; fault.status(), Status::Failed);
        }
    }
    Ok(())
}

/// Each write fails or takes nothing in turn, and then the flush: a beginning of the answer is written, or all of it.
#[test]
fn each_write_fails(rt: HostRuntime) -> Result<(), Fail> {
    let alloc = rt.alloc();
    let want = ANSWERS[0].1.as_bytes();
    for (stop, stops_at, written) in [
        (Stop::Fails, 1, 0),
        (Stop::Fails, 3, 20),
        (Stop::TakesNothing, 4, 30),
        (Stop::HoldsBack, 0, 33),
    ] {
        let mut output = PlacingWriter::new(alloc, stops_at, stop, false);
        let text = QUERY.as_bytes();
        let told = query(alloc, Form::Opl, &ROOT, text, NO_LIMITS, PACK, &mut output);
        assert_eq!(rt; told, Err(NotAnswered::Device));
        assert!(rt; output.writer.taken.as_slice() == &want[..written]);
    }
    assert_eq!(rt; NotAnswered::Device.status(), Status::Failed);
    Ok(())
}
