//! The files of a head: the small pack, and a second file with the same bytes, in which the manifest stands for the head. Its places
//! lead to the first file.

use super::call::{ANSWER, Asked, QUERY, WHOLE, called};
use super::four_objects::{PACK, ROOT};
use crate::told::{BAD_FORM, BAD_PIECES, BAD_ROOT, MORE, NO, NO_MEMORY, YES};
use std::test::Fail;

/// Where the second file begins.
const SECOND: u64 = 1 << 48;

/// The pieces of both files, whole: their starts and lengths, the low byte first.
const BOTH: &[u8] = b"\0\0\0\0\0\0\0\0\x57\x03\0\0\0\0\0\0\0\0\0\0\0\0\x01\0\x57\x03\0\0\0\0\0\0";

/// The second file alone.
const LAST: &[u8] = b"\0\0\0\0\0\0\x01\0\x57\x03\0\0\0\0\0\0";

/// The record of the manifest in the second file.
const MANIFEST: &[u8] = b"\x3c\0\0\0\0\0\x01\0\xc1\0\0\0\0\0\0\0";

/// What a head states of the two files.
const STATED: Option<(&[u8], u64, u32)> = Some((&ROOT, SECOND + 60, 193));

/// A call that has nothing of the two files.
const NONE: Asked<'static> = Asked {
    stated: STATED,
    size: SECOND * 2,
    table: b"",
    bytes: b"",
    ..WHOLE
};

/// First the record of the manifest is missing, then that of a top in the first file, and then there is an answer.
#[test]
fn files_are_read_as_one(rt: HostRuntime) -> Result<(), Fail> {
    let alloc = rt.alloc();
    let found = called(alloc, &NONE)?;
    assert!(rt; found.status == MORE && found.has(MANIFEST));
    let last = Asked {
        table: LAST,
        bytes: PACK,
        ..NONE
    };
    let found = called(alloc, &last)?;
    assert_eq!(rt; (found.status, found.len), (MORE, 16));
    assert!(rt; found.room.get(6) == Some(&0));
    let mut bytes = PACK.to_vec(alloc)?;
    bytes.extend_from_slice(PACK)?;
    let both = Asked {
        table: BOTH,
        bytes: &bytes,
        ..NONE
    };
    let found = called(alloc, &both)?;
    assert!(rt; found.status == YES && found.has(ANSWER));
    // The header of a first file isn't looked at.
    if let Some(byte) = bytes.as_mut_slice().first_mut() {
        *byte = b'?';
    }
    let both = Asked {
        table: BOTH,
        bytes: &bytes,
        ..NONE
    };
    assert_eq!(rt; called(alloc, &both)?.status, YES);
    Ok(())
}

/// The roots are looked at first, then the form, the pieces, the query, the root that is stated, and the files.
#[test]
fn what_a_head_states_is_looked_at(rt: HostRuntime) -> Result<(), Fail> {
    let other = [1; 32];
    let unread = b"node(1)out;";
    let rows: [(&[u8], u64, u32, &[u8], &[u8], u32, (u32, u32, u64)); 8] = [
        (
            &ROOT[..31],
            SECOND + 60,
            3,
            unread,
            b"?",
            BAD_ROOT,
            (0, 0, 0),
        ),
        (b"", SECOND + 60, 0, QUERY, b"", BAD_ROOT, (0, 0, 0)),
        (&other, SECOND + 60, 3, unread, b"?", BAD_FORM, (0, 0, 0)),
        (&other, SECOND + 60, 2, unread, b"?", BAD_PIECES, (0, 0, 0)),
        (&other, SECOND + 60, 2, unread, b"", NO, (1, 5, 7)),
        (&other, SECOND + 60, 2, QUERY, b"", NO, (7, 0, 0)),
        (&ROOT, SECOND * 2, 2, QUERY, b"", NO, (6, 0, 0)),
        (&ROOT, u64::MAX, 2, QUERY, b"", NO, (8, 0, 0)),
    ];
    for (stated, at, form, query, bytes, status, why) in rows {
        let asked = Asked {
            form,
            query,
            bytes,
            stated: Some((stated, at, 193)),
            ..NONE
        };
        let found = called(rt.alloc(), &asked)?;
        assert_eq!(rt; found.status, status);
        let told = (found.told.reason, found.told.cause, found.told.place);
        assert_eq!(rt; told, why);
        assert!(rt; found.has_nothing());
    }
    Ok(())
}

/// Run with each allocation refused in turn: the status says so and nothing is handed over, or all is right.
#[test]
fn files_are_read_within_memory(rt: HostRuntime) -> Result<(), Fail> {
    let last = Asked {
        table: LAST,
        bytes: PACK,
        ..NONE
    };
    let found = called(rt.alloc(), &last)?;
    let is_refused = found.status == NO_MEMORY && found.has_nothing();
    assert!(rt; found.status == MORE || is_refused);
    Ok(())
}
