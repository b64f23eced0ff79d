//! Documents that are handed over, rooms that are too short, and what is told where there is no document.

use crate::documents::osm_check_tell;
use crate::tests::sets::proved;
use crate::told::{BAD_FORM, BAD_ROOT, NO, NO_MEMORY, TOO_SHORT, Told, YES};
use std::alloc::Global;
use std::process::Abort;
use std::test::Fail;

const QUERY: &[u8] = b"node(1);out;";

// The documents of the answer, by the definitions of osm_forms.
const OPL: &[u8] = b"n1 Thighway=crossing x13.4 y52.5\n";

const JSON: &[u8] = b"{\"version\":0.6,\"generator\":\"osm_mirror\",\"elements\":[\n\
{\"type\":\"node\",\"id\":1,\"lat\":52.5,\"lon\":13.4,\"tags\":{\"highway\":\"crossing\"}}\n]}\n";

const XML: &[u8] = b"<?xml version=\"1.0\" encoding=\"UTF-8\"?>\n\
<osm version=\"0.6\" generator=\"osm_mirror\">\n\
<node id=\"1\" lat=\"52.5\" lon=\"13.4\"><tag k=\"highway\" v=\"crossing\"/></node>\n\
</osm>\n";

/// What a call is given beside the root, and how long a room.
#[derive(Clone, Copy)]
struct Asked<'a> {
    form: u32,
    query: &'a [u8],
    proof: &'a [u8],
    room: usize,
}

/// What a caller finds after a call, in place of what was there.
#[derive(Drop)]
struct Found {
    status: u32,
    told: Told,
    size: u64,
    room: Vec<u8>,
}

fn answer_to(alloc: Global, root: &[u8], asked: &Asked<'_>) -> Result<Found, Fail> {
    let mut told = Told {
        reason: 77,
        cause: 77,
        place: 77,
        ranges: 77,
        fetched: 77,
    };
    let mut size = 77;
    let mut room = vec![in alloc; b'.'; asked.room]?;
    let status = osm_check_tell(
        alloc,
        asked.form,
        asked.query,
        root,
        asked.proof,
        &mut room,
        &mut told,
        &mut size,
    );
    Ok(Found {
        status,
        told,
        size,
        room,
    })
}

/// Whether each byte of a room is as it was.
fn is_untouched(room: &[u8]) -> bool {
    room.iter().all(|byte| *byte == b'.')
}

#[test]
fn documents_are_handed_over(rt: HostRuntime) -> Result<(), Fail> {
    let alloc = rt.alloc();
    let right = proved(alloc, QUERY)?;
    for (form, document) in [(0, OPL), (1, JSON), (2, XML)] {
        let asked = Asked {
            form,
            query: QUERY,
            proof: &right.proof,
            room: document.len() + 3,
        };
        let found = answer_to(alloc, &right.root.0, &asked)?;
        assert_eq!(rt; found.status, YES);
        assert_eq!(rt; found.size, document.len() as u64);
        assert!(rt; found.room.starts_with(document) && found.room.ends_with(b"..."));
        assert_eq!(rt; (found.told.reason, found.told.fetched), (0, 1));
    }
    Ok(())
}

#[test]
fn a_room_may_be_too_short(rt: HostRuntime) -> Result<(), Fail> {
    let alloc = rt.alloc();
    let right = proved(alloc, QUERY)?;
    for (room, wanted) in [
        (0, TOO_SHORT),
        (JSON.len().saturating_sub(1), TOO_SHORT),
        (JSON.len(), YES),
    ] {
        let asked = Asked {
            form: 1,
            query: QUERY,
            proof: &right.proof,
            room,
        };
        let found = answer_to(alloc, &right.root.0, &asked)?;
        assert_eq!(rt; found.status, wanted);
        assert_eq!(rt; found.size, JSON.len() as u64);
        assert!(rt; wanted == YES || is_untouched(&found.room));
    }
    Ok(())
}

#[test]
fn where_there_is_no_document(rt: HostRuntime) -> Result<(), Fail> {
    let alloc = rt.alloc();
    let right = proved(alloc, QUERY)?;
    let (root, proof) = (right.root.0.as_slice(), right.proof.as_slice());
    let rows: [(u32, &[u8], &[u8], &[u8], u32, (u32, u32, u64)); 6] = [
        (1, QUERY, &[1; 32], proof, NO, (4, 0, 0)),
        (1, b"node(1)", root, proof, NO, (1, 11, 7)),
        (2, QUERY, root, b"", NO, (2, 0, 0)),
        (0, b"", root, proof, NO, (8, 0, 0)),
        (3, QUERY, root, proof, BAD_FORM, (0, 0, 0)),
        (3, QUERY, &right.root.0[..31], proof, BAD_ROOT, (0, 0, 0)),
    ];
    for (form, query, root, proof, status, why) in rows {
        let asked = Asked {
            form,
            query,
            proof,
            room: 200,
        };
        let found = answer_to(alloc, root, &asked)?;
        assert_eq!(rt; found.status, status);
        let told = (found.told.reason, found.told.cause, found.told.place);
        assert_eq!(rt; told, why);
        assert_eq!(rt;
            (found.told.ranges, found.told.fetched, found.size),
            (0, 0, 0)
        );
        assert!(rt; is_untouched(&found.room));
    }
    Ok(())
}

/// Out of memory, of which nothing is told, or the whole document: also where an allocation is refused (tests/system).
#[test]
fn documents_within_memory(rt: HostRuntime) -> Result<(), Fail> {
    let alloc = rt.alloc();
    let right = proved(alloc, QUERY)?;
    for _ in 0..2 {
        let asked = Asked {
            form: 2,
            query: QUERY,
            proof: &right.proof,
            room: XML.len(),
        };
        let found = answer_to(alloc, &right.root.0, &asked)?;
        let is_whole = found.status == YES && found.room.as_slice() == XML;
        let is_refused = found.status == NO_MEMORY && found.size == 0 && is_untouched(&found.room);
        assert!(rt; is_whole || is_refused, "status {}", found.status);
    }
    Ok(())
}
