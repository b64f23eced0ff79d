//! Heads that are written.

use super::read::{FILES, ROOT, TOWN};
use crate::{Head, write_head};
use std::alloc::{AllocError, Global};
use std::test::Fail;
use tree_node::Digest;

/// What the worked head says.
fn town(alloc: Global) -> Result<Head<'static>, AllocError> {
    Ok(Head {
        root: Digest(ROOT),
        sequence: 7,
        manifest_at: 281_474_976_710_716,
        manifest_len: 193,
        files: Vec::from_slice(alloc, &FILES)?,
    })
}

#[test]
fn a_head_is_written(rt: HostRuntime) -> Result<(), Fail> {
    let mut out = b"before\n".to_vec(rt.alloc())?;
    write_head(&town(rt.alloc())?, &mut out)?;
    assert!(rt; out.strip_prefix(b"before\n") == Some(TOWN));
    Ok(())
}

/// Whether the worked head is written after what is there, unless memory runs out, which leaves the bytes as they were.
fn is_written_within_memory(head: &Head<'_>, out: &mut Vec<u8>) -> bool {
    match write_head(head, out) {
        Ok(()) => out.strip_prefix(b"before\n") == Some(TOWN),
        Err(_) => out.as_slice() == b"before\n".as_slice(),
    }
}

/// Under refused allocations: the whole text, or out of memory.
#[test]
fn a_head_is_written_within_memory(rt: HostRuntime) -> Result<(), Fail> {
    let head = town(rt.alloc())?;
    for _ in 0..2 {
        let mut out = b"before\n".to_vec(rt.alloc())?;
        assert!(rt; is_written_within_memory(&head, &mut out));
    }
    Ok(())
}
