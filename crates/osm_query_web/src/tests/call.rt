//! A call, and what the caller finds after it.

use super::four_objects::{PACK, ROOT};
use crate::exports::{osm_query_answer, osm_query_answer_in_files};
use crate::told::Told;
use std::alloc::Global;
use std::test::Fail;

pub(super) const QUERY: &[u8] = b"node(1);out;";

/// The document of its answer, by the definitions of osm_forms.
pub(super) const ANSWER: &[u8] = b"n1 Thighway=crossing x13.4 y52.5\n";

/// What a call is given.
#[derive(Clone, Copy)]
pub(super) struct Asked<'a> {
    pub(super) form: u32,
    pub(super) query: &'a [u8],
    pub(super) root: &'a [u8],
    pub(super) at_most: u64,
    /// What a head states: the root, and where the manifest's record stands. Without one it is a pack.
    pub(super) stated: Option<(&'a [u8], u64, u32)>,
    pub(super) size: u64,
    pub(super) table: &'a [u8],
    pub(super) bytes: &'a [u8],
    pub(super) room: usize,
}

/// The whole pack, as one piece.
pub(super) const WHOLE: Asked<'static> = Asked {
    form: 0,
    query: QUERY,
    root: &ROOT,
    at_most: 1000,
    stated: None,
    size: PACK.len() as u64,
    table: b"\0\0\0\0\0\0\0\0\x57\x03\0\0\0\0\0\0",
    bytes: PACK,
    room: 400,
};

/// Nothing of the pack.
pub(super) const NOTHING: Asked<'static> = Asked {
    table: b"",
    bytes: b"",
    ..WHOLE
};

/// What the caller finds in place of what was there.
#[derive(Drop)]
pub(super) struct Found {
    pub(super) status: u32,
    pub(super) told: Told,
    pub(super) len: u64,
    pub(super) room: Vec<u8>,
}

/// Calls with a room of points, and with other numbers than any that are told.
pub(super) fn called(alloc: Global, asked: &Asked<'_>) -> Result<Found, Fail> {
    let mut told = Told {
        reason: 77,
        cause: 77,
        place: 77,
    };
    let mut len = 77;
    let mut room = vec![in alloc; b'.'; asked.room]?;
    let status = status_of(alloc, asked, &mut room, &mut told, &mut len);
    Ok(Found {
        status,
        told,
        len,
        room,
    })
}

/// The status of a call.
fn status_of(
    alloc: Global,
    asked: &Asked<'_>,
    room: &mut [u8],
    told: &mut Told,
    len: &mut u64,
) -> u32 {
    let Asked {
        form,
        query,
        root,
        at_most,
        size,
        table,
        bytes,
        ..
    } = *asked;
    match asked.stated {
        None => osm_query_answer(
            alloc, form, query, root, at_most, size, table, bytes, room, told, len,
        ),
        Some((stated, at, manifest_len)) => osm_query_answer_in_files(
            alloc,
            form,
            query,
            root,
            at_most,
            stated,
            at,
            manifest_len,
            size,
            table,
            bytes,
            room,
            told,
            len,
        ),
    }
}

impl Found {
    /// Whether just these bytes were handed over, and the rest of the room is as it was.
    pub(super) fn has(&self, bytes: &[u8]) -> bool {
        let Some(rest) = self.room.strip_prefix(bytes) else {
            return false;
        };
        self.len == bytes.len() as u64 && is_untouched(rest)
    }

    /// Whether nothing was handed over.
    pub(super) fn has_nothing(&self) -> bool {
        self.len == 0 && is_untouched(&self.room)
    }
}

/// Whether each byte of a room is as it was.
pub(super) fn is_untouched(room: &[u8]) -> bool {
    room.iter().all(|byte| *byte == b'.')
}
