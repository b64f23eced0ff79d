//! A page that has nothing at first, and fetches what is missing.

use super::call::{ANSWER, Asked, WHOLE, called};
use super::four_objects::PACK;
use crate::told::{MORE, YES};
use std::alloc::{AllocError, Global};
use std::test::Fail;

/// The pieces that a page has: their table, and their bytes.
#[derive(Drop)]
struct Page {
    table: Vec<u8>,
    bytes: Vec<u8>,
}

/// The pieces that were fetched of the pack.
fn pieces_of(alloc: Global, is_fetched: &[bool]) -> Result<Page, AllocError> {
    let mut table = Vec::new(alloc);
    let mut bytes = Vec::new(alloc);
    let mut len = 0u64;
    for (at, (byte, is_fetched)) in PACK.iter().zip(is_fetched).enumerate() {
        if *is_fetched {
            if len == 0 {
                table.extend_from_slice(&(at as u64).to_le_bytes())?;
            }
            len = len.saturating_add(1);
            bytes.push(*byte)?;
        } else if len > 0 {
            table.extend_from_slice(&len.to_le_bytes())?;
            len = 0;
        }
    }
    if len > 0 {
        table.extend_from_slice(&len.to_le_bytes())?;
    }
    Ok(Page { table, bytes })
}

/// Fetches the parts of the pack that a table lists.
fn fetch(table: &[u8], is_fetched: &mut [bool]) {
    for row in table.chunks_exact(16) {
        let (start, len) = row.split_at(8);
        let start = number(start);
        let len = number(len);
        for flag in is_fetched.iter_mut().skip(start).take(len) {
            *flag = true;
        }
    }
}

/// The number that bytes are, the low one first, as far as it is below 65,536.
fn number(bytes: &[u8]) -> usize {
    match bytes {
        [low, high, ..] => usize::from(*low) + usize::from(*high) * 256,
        _ => 0,
    }
}

/// First the header is missing, then the manifest, whose place it says, and then the tree's only node, whose place that says.
const MISSING: [&[u8]; 3] = [
    b"\0\0\0\0\0\0\0\0\x3c\0\0\0\0\0\0\0",
    b"\x3c\0\0\0\0\0\0\0\xc1\0\0\0\0\0\0\0",
    b"\xfd\0\0\0\0\0\0\0\x25\x01\0\0\0\0\0\0",
];

#[test]
fn a_page_fetches_what_is_missing(rt: HostRuntime) -> Result<(), Fail> {
    let alloc = rt.alloc();
    let mut is_fetched = vec![in alloc; false; PACK.len()]?;
    for table in MISSING {
        let page = pieces_of(alloc, &is_fetched)?;
        let found = called(
            alloc,
            &Asked {
                table: &page.table,
                bytes: &page.bytes,
                ..WHOLE
            },
        )?;
        assert_eq!(rt; found.status, MORE);
        assert!(rt; found.has(table));
        fetch(table, &mut is_fetched);
    }
    let page = pieces_of(alloc, &is_fetched)?;
    let found = called(
        alloc,
        &Asked {
            table: &page.table,
            bytes: &page.bytes,
            ..WHOLE
        },
    )?;
    assert_eq!(rt; found.status, YES);
    assert!(rt; found.has(ANSWER));
    Ok(())
}
