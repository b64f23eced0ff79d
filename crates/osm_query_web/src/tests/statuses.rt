//! Each status, once or more.

use super::call::{ANSWER, Asked, NOTHING, QUERY, WHOLE, called, is_untouched};
use super::four_objects::{PACK, ROOT};
use crate::told::{BAD_FORM, BAD_PIECES, BAD_ROOT, MORE, NO, NO_MEMORY, TOO_SHORT, YES};
use std::test::Fail;

/// The documents of the answer, by the definitions of osm_forms.
const DOCUMENTS: [&[u8]; 3] = [
    ANSWER,
    b"{\"version\":0.6,\"generator\":\"osm_mirror\",\"elements\":[\n\
{\"type\":\"node\",\"id\":1,\"lat\":52.5,\"lon\":13.4,\"tags\":{\"highway\":\"crossing\"}}\n]}\n",
    b"<?xml version=\"1.0\" encoding=\"UTF-8\"?>\n\
<osm version=\"0.6\" generator=\"osm_mirror\">\n\
<node id=\"1\" lat=\"52.5\" lon=\"13.4\"><tag k=\"highway\" v=\"crossing\"/></node>\n\
</osm>\n",
];

#[test]
fn documents_are_handed_over(rt: HostRuntime) -> Result<(), Fail> {
    for (form, document) in (0..).zip(DOCUMENTS) {
        let found = called(rt.alloc(), &Asked { form, ..WHOLE })?;
        assert_eq!(rt; found.status, YES);
        assert!(rt; found.has(document));
        assert_eq!(rt; found.told.reason, 0);
    }
    Ok(())
}

/// What is to be handed over may be a document of 33 bytes, or a table of one span.
#[test]
fn a_room_may_be_too_short(rt: HostRuntime) -> Result<(), Fail> {
    for (asked, room, status, len) in [
        (WHOLE, 0, TOO_SHORT, 33),
        (WHOLE, 32, TOO_SHORT, 33),
        (WHOLE, 33, YES, 33),
        (NOTHING, 15, TOO_SHORT, 16),
        (NOTHING, 16, MORE, 16),
    ] {
        let found = called(rt.alloc(), &Asked { room, ..asked })?;
        assert_eq!(rt; (found.status, found.len), (status, len));
        assert_eq!(rt; is_untouched(&found.room), status == TOO_SHORT);
    }
    Ok(())
}

/// The root is looked at first, then the form, the pieces, the query and the pack.
#[test]
fn what_is_looked_at_first_is_told(rt: HostRuntime) -> Result<(), Fail> {
    let other = &[1; 32];
    let unread = b"node(1)out;";
    let rows: [(u32, &[u8], &[u8], &[u8], u32, (u32, u32, u64)); 6] = [
        (3, &ROOT[..31], unread, &PACK[1..], BAD_ROOT, (0, 0, 0)),
        (3, &ROOT, unread, &PACK[1..], BAD_FORM, (0, 0, 0)),
        (2, &ROOT, unread, &PACK[1..], BAD_PIECES, (0, 0, 0)),
        (2, other, unread, PACK, NO, (1, 5, 7)),
        (1, other, QUERY, PACK, NO, (7, 0, 0)),
        (1, &ROOT, QUERY, PACK, YES, (0, 0, 0)),
    ];
    for (form, root, query, bytes, status, why) in rows {
        let asked = Asked {
            form,
            root,
            query,
            bytes,
            ..WHOLE
        };
        let found = called(rt.alloc(), &asked)?;
        assert_eq!(rt; found.status, status);
        let told = (found.told.reason, found.told.cause, found.told.place);
        assert_eq!(rt; told, why);
        assert!(rt; status == YES || found.has_nothing());
    }
    Ok(())
}

/// A file that is no pack, one that is cut, and too many bytes: the manifest and the leaf have 430.
#[test]
fn reasons_are_told(rt: HostRuntime) -> Result<(), Fail> {
    let empty = Asked { size: 0, ..NOTHING };
    let cut = Asked {
        size: 0x356,
        table: b"\0\0\0\0\0\0\0\0\x56\x03\0\0\0\0\0\0",
        bytes: &PACK[..0x356],
        ..WHOLE
    };
    let few = Asked {
        at_most: 429,
        ..WHOLE
    };
    for (asked, reason) in [(empty, 2), (cut, 4), (few, 10)] {
        let found = called(rt.alloc(), &asked)?;
        assert_eq!(rt; found.status, NO);
        assert_eq!(rt; found.told.reason, reason);
        assert!(rt; found.has_nothing());
    }
    Ok(())
}

/// Each byte of the pack is turned in turn: the answer is the right one, or there is none.
#[test]
fn no_spoiled_byte_gives_another_answer(rt: HostRuntime) -> Result<(), Fail> {
    let alloc = rt.alloc();
    for at in 0..PACK.len() {
        let mut pack = PACK.to_vec(alloc)?;
        if let Some(byte) = pack.as_mut_slice().get_mut(at) {
            *byte ^= 0x10;
        }
        let asked = Asked {
            bytes: &pack,
            ..WHOLE
        };
        let found = called(alloc, &asked)?;
        let is_right = found.status == YES && found.has(ANSWER);
        assert!(rt;
            is_right || found.status == NO && found.has_nothing(),
            "{at}"
        );
    }
    Ok(())
}

/// Out of memory, of which nothing is told, or the whole document, or where nothing of the pack is at hand, that its header is
/// missing: also where an allocation is refused (tests/system).
#[test]
fn answers_within_memory(rt: HostRuntime) -> Result<(), Fail> {
    let alloc = rt.alloc();
    let header = b"\0\0\0\0\0\0\0\0\x3c\0\0\0\0\0\0\0";
    for (asked, status, bytes) in [
        (WHOLE, YES, ANSWER),
        (NOTHING, MORE, header),
        (WHOLE, YES, ANSWER),
    ] {
        let found = called(alloc, &asked)?;
        let is_whole = found.status == status && found.has(bytes);
        let is_refused = found.status == NO_MEMORY && found.has_nothing();
        assert!(rt; is_whole || is_refused, "status {}", found.status);
        assert_eq!(rt; found.told.reason, 0);
    }
    Ok(())
}
