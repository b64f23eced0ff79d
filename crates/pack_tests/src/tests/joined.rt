//! A pack whose nodes stand in two files.

use super::small_pack::{LEN, NODES, PACK, ROOT};
use bumpalo::Bump;
use node_pack::{PackSource, Place, ReadAt, ReadFault};
use outside_shelf::{NodeSource, OutsideShelf, Refused};
use pack_devices::{Remote, Seen};
use pack_files::JoinedFiles;
use std::alloc::{AllocError, Global};
use std::process::Abort;
use std::test::Fail;
use tree_node::{Digest, Shelf};

/// Where the second file begins.
const SECOND_AT: u64 = 281_474_976_710_656;

/// A file beside the worked pack: the records of the top of the tree of tags, of the leaf with the key `b`, and of the manifest.
/// The children that it hasn't got itself are in the pack. A script of a few lines put it together.
const SECOND: &[u8] =
    b"\x00\x00\x00\x5a\x02\x01\x00\x02\x00\x01\x61\x00\x00\x00\x00\x00\x00\x00\x01\xba\x43\x7a\x7a\xbc\xcc\x0d\x72\x3d\x3a\x2e\xad\x95\x07\x22\xbf\x1c\x12\x59\x4a\x18\xdc\xc2\x41\xc7\xa4\xaf\xe1\xa5\x35\x7d\xfe\x00\x01\x62\x00\x00\x00\x00\x00\x00\x00\x01\x92\x53\xd5\xfb\x6e\x17\x2d\x68\x0c\x9c\x90\x4d\x3d\xa7\x5f\x65\x67\x5b\x6e\xe3\xb0\x82\x49\x08\x09\x3d\xd6\x82\xf2\x7d\x0d\xaf\x00\x00\x00\x00\x00\x00\x01\x73\x00\x00\x00\x0f\x00\x01\x00\x00\x00\x00\x00\x76\x00\x00\x00\x0f\x00\x00\x00\x0b\x02\x00\x00\x01\x00\x01\x62\x00\x00\x00\x00\x00\x00\x00\x85\x4f\x53\x4d\x4d\x01\x67\xab\xdd\x72\x10\x24\xf0\xff\x4e\x0b\x3f\x4c\x2f\xc1\x3b\xc5\xba\xd4\x2d\x0b\x78\x51\xd4\x56\xd8\x8d\x20\x3d\x15\xaa\xa4\x50\x17\x27\xe7\xf2\xf1\x68\x1d\x46\x2e\xbc\x7d\xf0\x02\x4c\x97\xec\x1e\xf2\x44\x9f\x64\x54\xa1\x17\x74\x36\xee\x3a\x26\x4a\x67\x83\x9d\x9f\x29\x05\x27\xa6\xbe\x62\x6a\x8f\x59\x85\xb2\x6e\x19\xb2\x37\xb4\x48\x72\xb0\x36\x31\x81\x1d\xf4\x41\x6f\xc1\x71\x31\x78\xfb\x5e\x51\x24\x25\xfc\x94\x49\x31\x6e\xc9\x59\x69\xeb\xe7\x1e\x2d\x57\x6d\xba\xb8\x33\xd6\x1e\x2a\x5b\x93\x30\xfd\x70\xee\x02\x00\x00\x00\x00\x00\x00\x01\x6b\x00\x00\x00\x08\x00\x01\x00\x00\x00\x00\x00\x00\x00\x00\x00\x76\x00\x00\x00\x00\x00\x00\x01\x91\x00\x00\x00\x08\x00\x00\x00\x00\x00\x00\x01\x99\x00\x00\x00\x08";

/// Where the record of the manifest stands.
const MANIFEST: Place = Place {
    at: SECOND_AT + 133,
    len: 185,
};

/// Both files.
fn files(alloc: Global) -> Result<JoinedFiles<&'static [u8]>, AllocError> {
    Ok(JoinedFiles::new(alloc, vec![in alloc; PACK, SECOND]?))
}

/// Each byte is at the offset of its file and its own, and between the files there is none.
#[test]
fn reads_files_as_one(rt: HostRuntime) -> Result<(), Fail> {
    let mut files = files(rt.alloc())?;
    assert!(rt; files.size() == Ok(2 * SECOND_AT));
    let mut into = b"before".to_vec(rt.alloc())?;
    files.read_at(1, 3, &mut into)?;
    files.read_at(SECOND_AT, 4, &mut into)?;
    files.read_at(SECOND_AT + SECOND.len() as u64, 0, &mut into)?;
    assert_eq!(rt; into.as_slice(), b"beforeSMK\x00\x00\x00\x5a".as_slice());
    for (offset, len) in [
        (LEN as u64, 1),
        (LEN as u64 - 1, 2),
        (SECOND_AT - 1, 1),
        (SECOND_AT - 1, 2),
        (SECOND_AT + SECOND.len() as u64, 1),
        (SECOND_AT, usize::MAX),
        (2 * SECOND_AT, 0),
        (u64::MAX, 1),
    ] {
        let read = files.read_at(offset, len, &mut into);
        assert!(rt; read == Err(ReadFault::Device), "{offset} {len}");
    }
    assert_eq!(rt; into.len(), 13);
    Ok(())
}

/// Every node is given from the root down, wherever it is, and its place is known from then on. Run with each allocation refused
/// in turn.
#[test]
fn gives_a_pack_in_two_files_within_memory(rt: HostRuntime) -> Result<(), Fail> {
    let arena = Bump::new(rt.alloc());
    let source = PackSource::open_at(rt.alloc(), files(rt.alloc())?, ROOT, MANIFEST)?;
    assert!(rt; source.root() == ROOT && source.place(&ROOT) == Some(MANIFEST));
    assert!(rt; source.place(&NODES[1].0).is_none());
    let mut shelf = OutsideShelf::new(rt.alloc(), &arena, source, None);
    for place in &NODES {
        if shelf.fetch(&place.0).is_err() {
            assert_eq!(rt; shelf.refused(), Some(Refused::Memory));
        }
        assert!(rt; shelf.fetch(&place.0) == Ok(place.2));
    }
    Ok(())
}

/// The place that is known of a node once the manifest and the top of the tree of tags were read.
fn place_after(alloc: Global, key: &Digest) -> Result<Option<Place>, Fail> {
    let mut source = PackSource::open_at(alloc, files(alloc)?, ROOT, MANIFEST)?;
    let mut node = Vec::new(alloc);
    source.read_node(&ROOT, 1000, &mut node)?;
    source.read_node(&NODES[1].0, 1000, &mut node)?;
    Ok(source.place(key))
}

/// The places are those of the tables.
#[test]
fn knows_places_in_both_files(rt: HostRuntime) -> Result<(), Fail> {
    for (key, at, len) in [
        (&NODES[1].0, SECOND_AT, 118),
        (&NODES[2].0, 363, 8),
        (&NODES[3].0, 371, 15),
        (&NODES[4].0, SECOND_AT + 118, 15),
        (&NODES[5].0, 401, 8),
        (&NODES[6].0, 409, 8),
    ] {
        let place = place_after(rt.alloc(), key)?;
        assert!(rt; place == Some(Place { at, len }), "{at}");
    }
    Ok(())
}

/// Each of several files far away is told what will be read in it, as it lies there.
#[test]
fn tells_each_file(rt: HostRuntime) -> Result<(), Fail> {
    let first = Seen::new();
    let second = Seen::new();
    let devices = vec![in rt.alloc();
        Remote::new(rt.alloc(), PACK, &first),
        Remote::new(rt.alloc(), SECOND, &second),
    ]?;
    let mut files = JoinedFiles::new(rt.alloc(), devices);
    assert!(rt; files.is_remote());
    files.expect(&[
        Place { at: 363, len: 8 },
        Place { at: 401, len: 8 },
        MANIFEST,
        Place {
            at: 2 * SECOND_AT,
            len: 1,
        },
    ]);
    let mut into = Vec::new(rt.alloc());
    files.read_at(401, 8, &mut into)?;
    files.read_at(MANIFEST.at, MANIFEST.len as usize, &mut into)?;
    assert_eq!(rt;
        (first.rounds.get(), first.places.get(), first.sudden.get()),
        (1, 2, 0)
    );
    assert_eq!(rt;
        (
            second.rounds.get(),
            second.places.get(),
            second.sudden.get()
        ),
        (1, 1, 0)
    );
    Ok(())
}
