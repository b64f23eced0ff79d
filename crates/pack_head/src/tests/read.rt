//! Heads that are read.

use crate::{FILES_LIMIT, Head, HeadFault, HeadFile, is_head_name, read_head};
use std::alloc::{AllocError, Global};
use std::test::Fail;

/// The worked head, with two files.
pub const TOWN: &[u8] =
    b"osm_mirror head 1\nroot 61ff9625d85d5300d6770161600478b84dcd5a866e3afedd315066fa05670cef\nsequence 7\nmanifest 281474976710716 193\nfile 419 town.pack\nfile 312 town.pack.1\n";

/// The root of the worked head.
pub const ROOT: [u8; 32] =
    *b"\x61\xff\x96\x25\xd8\x5d\x53\x00\xd6\x77\x01\x61\x60\x04\x78\xb8\x4d\xcd\x5a\x86\x6e\x3a\xfe\xdd\x31\x50\x66\xfa\x05\x67\x0c\xef";

/// The files of the worked head.
pub const FILES: [HeadFile<'static>; 2] = [
    HeadFile {
        len: 419,
        name: b"town.pack",
    },
    HeadFile {
        len: 312,
        name: b"town.pack.1",
    },
];

/// Whether this is what the worked head says.
fn is_town(head: &Head<'_>) -> bool {
    head.root.0 == ROOT
        && head.sequence == 7
        && head.manifest_at == 281_474_976_710_716
        && head.manifest_len == 193
        && head.files.as_slice() == FILES.as_slice()
}

#[test]
fn a_head_is_read(rt: HostRuntime) -> Result<(), Fail> {
    let head = read_head(rt.alloc(), TOWN)?;
    assert!(rt; is_town(&head));
    Ok(())
}

/// Whether the worked head is read, unless memory runs out.
fn is_read_within_memory(alloc: Global) -> bool {
    match read_head(alloc, TOWN) {
        Ok(head) => is_town(&head),
        Err(fault) => fault == HeadFault::Memory,
    }
}

/// Under refused allocations: the whole head, or out of memory.
#[test]
fn a_head_is_read_within_memory(rt: HostRuntime) {
    assert!(rt; is_read_within_memory(rt.alloc()));
    assert!(rt; is_read_within_memory(rt.alloc()));
}

/// The first four lines of the worked head.
const FRONT: &[u8] =
    b"osm_mirror head 1\nroot 61ff9625d85d5300d6770161600478b84dcd5a866e3afedd315066fa05670cef\nsequence 7\nmanifest 281474976710716 193\n";

/// A head with so many files, all of one name.
fn with_files(alloc: Global, count: usize) -> Result<Vec<u8>, AllocError> {
    let mut text = FRONT.to_vec(alloc)?;
    for _ in 0..count {
        text.extend_from_slice(b"file 0 a\n")?;
    }
    Ok(text)
}

#[test]
fn as_many_files_as_there_may_be(rt: HostRuntime) -> Result<(), Fail> {
    let all = with_files(rt.alloc(), FILES_LIMIT)?;
    assert!(rt; read_head(rt.alloc(), &all)?.files.len() == 65_535);
    let more = with_files(rt.alloc(), FILES_LIMIT + 1)?;
    assert!(rt; matches!(read_head(rt.alloc(), &more), Err(HeadFault::Line(65_540))));
    Ok(())
}

#[test]
fn names(rt: HostRuntime) {
    for name in ["a", "town.pack", "A-1_b..", "-", "0", "_."] {
        assert!(rt; is_head_name(name.as_bytes()), "{name}");
    }
    for name in [
        "", ".", "..", ".a", "a/b", "a b", "ä", "a\n", "a%", "a\u{0}",
    ] {
        assert!(rt; !is_head_name(name.as_bytes()), "{name}");
    }
    assert!(rt; is_head_name(&[b'n'; 255]));
    assert!(rt; !is_head_name(&[b'n'; 256]));
}
