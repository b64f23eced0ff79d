//! Keys, values and manifests, read.

use super::set_of;
use crate::tests::snapshot_of;
use crate::tests::texts_of_sets::ALL_KINDS;
use osm_index::{
    BackKey, CellKey, Edition, Snapshot, TagKey, append_tag_key, back_key, cell_key, cell_value,
    entries_of, read_back_key, read_cell_key, read_cell_value, read_manifest, read_reference_key,
    read_tag_key, reference_key, write_manifest,
};
use osm_model::{Coord, Kind, Ref};
use std::alloc::Global;
use std::process::Abort;
use std::test::Fail;
use tree_build::Entry;
use tree_node::Tree;

/// The digests of the tops of the four trees of all kinds, as in tests/vectors/roots.tsv.
const TOPS: &str =
    "ff644312c4f751ed2330aeb4cba00844b95bb00dc2ea2dfc0c88e7063315fa113e54d2beec94223acd99a9105f2c0aacf782241f6c9872037e7bfb91cad81d76ac2e37985ddf4af840a9c68b78e93fa7d8ff1313117c186814ee4f61f0c59cccbe0c7996dfca0f9f9fe64b7e9d10b3bca9c3bdae6f5bd00a47fca709a335dc60";

/// The bytes of the manifest of all kinds in an edition.
fn manifest_of(alloc: Global, edition: Edition) -> Result<Vec<u8>, Fail> {
    let snapshot = snapshot_of(alloc, ALL_KINDS, edition)?;
    let mut bytes = Vec::new(alloc);
    write_manifest(snapshot.manifest(), &mut bytes)?;
    Ok(bytes)
}

/// Whether the manifest is read and written again, has so many bytes, and begins with these digits.
fn check_manifest(
    rt: &(impl Abort + AllocGlobal),
    edition: Edition,
    len: usize,
    front: &str,
) -> Result<(), Fail> {
    let bytes = manifest_of(rt.alloc(), edition)?;
    assert_eq!(rt; bytes.len(), len);
    let mut again = Vec::new(rt.alloc());
    if let Some(manifest) = read_manifest(&bytes) {
        assert_eq!(rt; manifest.edition, edition);
        write_manifest(&manifest, &mut again)?;
    }
    assert_eq!(rt; &again[..], &bytes[..]);
    let digits = hex::encode(rt.alloc(), &bytes)?;
    assert!(rt; digits.as_str().starts_with(front));
    assert!(rt; digits.as_str().ends_with(TOPS));
    Ok(())
}

#[test]
fn manifests_are_read(rt: HostRuntime) -> Result<(), Fail> {
    check_manifest(&rt, Edition::One, 133, "4f534d4d01")?;
    let second = Edition::Two { sequence: 7 };
    check_manifest(&rt, second, 141, "4f534d4d020000000000000007")
}

/// Whether the manifest of an edition, cut to so many bytes, is read.
fn is_read_cut(alloc: Global, edition: Edition, len: usize) -> Result<bool, Fail> {
    let bytes = manifest_of(alloc, edition)?;
    Ok(read_manifest(bytes.get(..len).unwrap_or(&[])).is_some())
}

/// Whether the manifest of an edition is read with another byte at a place.
fn is_read_with(alloc: Global, edition: Edition, place: usize, byte: u8) -> Result<bool, Fail> {
    let mut bytes = manifest_of(alloc, edition)?;
    if let Some(there) = bytes.get_mut(place) {
        *there = byte;
    }
    Ok(read_manifest(&bytes).is_some())
}

/// Another length than that of the edition.
#[test]
fn manifests_have_their_length(rt: HostRuntime) -> Result<(), Fail> {
    let alloc = rt.alloc();
    for len in [0, 4, 5, 12, 13, 132, 133, 140] {
        assert!(rt;
            !is_read_cut(alloc, Edition::Two { sequence: 0 }, len)?,
            "{len}"
        );
    }
    assert!(rt; !is_read_cut(alloc, Edition::One, 132)?);
    let mut longer = manifest_of(alloc, Edition::One)?;
    longer.push(0)?;
    assert!(rt; read_manifest(&longer).is_none());
    Ok(())
}

/// Another beginning, another number, and the number of the other edition.
#[test]
fn other_bytes_are_no_manifest(rt: HostRuntime) -> Result<(), Fail> {
    let second = Edition::Two { sequence: 0 };
    let rows = [
        (Edition::One, 0, b'o'),
        (Edition::One, 3, b'N'),
        (Edition::One, 4, 0),
        (Edition::One, 4, 2),
        (Edition::One, 4, 3),
        (second, 4, 0),
        (second, 4, 1),
        (second, 4, 3),
    ];
    for (edition, place, byte) in rows {
        assert!(rt;
            !is_read_with(rt.alloc(), edition, place, byte)?,
            "{place} {byte}"
        );
    }
    Ok(())
}

/// The key of an entry, read and written again; empty where it isn't read.
fn key_again(alloc: Global, tree: Tree, entry: &Entry<'_>) -> Result<Vec<u8>, Fail> {
    let mut bytes = Vec::new(alloc);
    match tree {
        Tree::Objects => {
            if let Some(name) = read_reference_key(entry.key) {
                bytes.extend_from_slice(&reference_key(name))?;
            }
        }
        Tree::Tags => {
            if let Some(found) = read_tag_key(entry.key) {
                append_tag_key(found.key, found.value, found.name, &mut bytes)?;
            }
        }
        Tree::Cells => {
            if let Some(place) = read_cell_value(entry.value)
                && let Some(found) = read_cell_key(entry.key)
            {
                bytes.extend_from_slice(&cell_key(place, found.id))?;
            }
        }
        Tree::Backs => {
            if let Some(found) = read_back_key(entry.key) {
                bytes.extend_from_slice(&back_key(found.target, found.referrer))?;
            }
        }
    }
    Ok(bytes)
}

#[test]
fn keys_of_entries_are_read(rt: HostRuntime) -> Result<(), Fail> {
    let alloc = rt.alloc();
    let set = set_of(alloc, ALL_KINDS)?;
    for tree in [Tree::Objects, Tree::Tags, Tree::Cells, Tree::Backs] {
        let list = entries_of(alloc, &set, tree)?;
        for entry in list.sorted(alloc)?.iter() {
            let again = key_again(alloc, tree, entry)?;
            assert_eq!(rt; &again[..], entry.key);
        }
    }
    Ok(())
}

#[test]
fn references_are_read(rt: HostRuntime) -> Result<(), Fail> {
    let way = Ref {
        kind: Kind::Way,
        id: 10,
    };
    let rel = Ref {
        kind: Kind::Rel,
        id: -1,
    };
    let back = BackKey {
        target: way,
        referrer: rel,
    };
    let key = b"\x02\x80\0\0\0\0\0\0\x0a\x03\x7f\xff\xff\xff\xff\xff\xff\xff";
    assert_eq!(rt; read_reference_key(&key[..9]), Some(way));
    assert_eq!(rt; read_reference_key(&key[9..]), Some(rel));
    assert_eq!(rt; read_back_key(key), Some(back));
    let rows: [&[u8]; 5] = [
        b"",
        b"\x02\x80\0\0\0\0\0\0",
        b"\x02\x80\0\0\0\0\0\0\x0a\0",
        b"\0\x80\0\0\0\0\0\0\x0a",
        b"\x04\x80\0\0\0\0\0\0\x0a",
    ];
    for key in rows {
        assert_eq!(rt; read_reference_key(key), None);
    }
    let rows: [&[u8]; 4] = [
        b"\x02\x80\0\0\0\0\0\0\x0a",
        b"\x02\x80\0\0\0\0\0\0\x0a\x03\x7f\xff\xff\xff\xff\xff\xff",
        b"\x02\x80\0\0\0\0\0\0\x0a\x04\x7f\xff\xff\xff\xff\xff\xff\xff",
        b"\0\x80\0\0\0\0\0\0\x0a\x03\x7f\xff\xff\xff\xff\xff\xff\xff",
    ];
    for key in rows {
        assert_eq!(rt; read_back_key(key), None);
    }
    Ok(())
}

#[test]
fn cells_are_read(rt: HostRuntime) -> Result<(), Fail> {
    // Node 1 of all kinds.
    let cell = CellKey {
        row: 1425,
        column: 1934,
        id: 1,
    };
    let place = Coord::new(134_000_000, 525_000_000);
    let value = b"\x07\xfc\xad\x80\x1f\x4a\xdd\x40";
    assert_eq!(rt;
        read_cell_key(b"\x05\x91\x07\x8e\x80\0\0\0\0\0\0\x01"),
        Some(cell)
    );
    assert_eq!(rt; read_cell_value(value), Some(place));
    assert_eq!(rt; &cell_value(place)[..], &value[..]);
    // The north pole at longitude 180.
    let pole = CellKey {
        row: 1800,
        column: 3600,
        id: i64::MIN,
    };
    let corner = Coord::new(1_800_000_000, 900_000_000);
    assert_eq!(rt;
        read_cell_key(b"\x07\x08\x0e\x10\0\0\0\0\0\0\0\0"),
        Some(pole)
    );
    assert_eq!(rt;
        read_cell_value(b"\x6b\x49\xd2\0\x35\xa4\xe9\0"),
        Some(corner)
    );
    let rows: [&[u8]; 5] = [
        b"\x07\x08\x0e",
        b"\x07\x08\x0e\x10\0\0\0\0\0\0\0",
        b"\x07\x08\x0e\x10\0\0\0\0\0\0\0\0\0",
        b"\x07\x09\x0e\x10\0\0\0\0\0\0\0\0",
        b"\x07\x08\x0e\x11\0\0\0\0\0\0\0\0",
    ];
    for key in rows {
        assert_eq!(rt; read_cell_key(key), None);
    }
    let rows: [&[u8]; 7] = [
        b"\x07\xfc\xad",
        b"\x07\xfc\xad\x80\x1f\x4a\xdd",
        b"\x07\xfc\xad\x80\x1f\x4a\xdd\x40\0",
        b"\x6b\x49\xd2\x01\x1f\x4a\xdd\x40",
        b"\x94\xb6\x2d\xff\x1f\x4a\xdd\x40",
        b"\x07\xfc\xad\x80\x35\xa4\xe9\x01",
        b"\x07\xfc\xad\x80\xca\x5b\x16\xff",
    ];
    for value in rows {
        assert_eq!(rt; read_cell_value(value), None);
    }
    Ok(())
}

#[test]
fn tags_are_read(rt: HostRuntime) -> Result<(), Fail> {
    let name = Ref {
        kind: Kind::Way,
        id: 10,
    };
    let tag = TagKey {
        key: b"name",
        value: b"A B",
        name,
    };
    let empty = TagKey {
        key: b"",
        value: b"",
        name,
    };
    assert_eq!(rt;
        read_tag_key(b"name\0A B\0\x02\x80\0\0\0\0\0\0\x0a"),
        Some(tag)
    );
    assert_eq!(rt; read_tag_key(b"\0\0\x02\x80\0\0\0\0\0\0\x0a"), Some(empty));
    let rows: [&[u8]; 9] = [
        b"",
        b"name",
        b"name\0A B",
        b"name\0A B\0",
        b"name\0A B\0\x02\x80\0\0\0\0\0\0",
        b"name\0A B\0\x02\x80\0\0\0\0\0\0\x0a\0",
        b"name\0A B\0\x04\x80\0\0\0\0\0\0\x0a",
        b"nam\xe9\0A B\0\x02\x80\0\0\0\0\0\0\x0a",
        b"name\0A \xff\0\x02\x80\0\0\0\0\0\0\x0a",
    ];
    for key in rows {
        assert_eq!(rt; read_tag_key(key), None);
    }
    Ok(())
}

#[test]
fn texts_of_tags_have_a_limit(rt: HostRuntime) -> Result<(), Fail> {
    let alloc = rt.alloc();
    let name = Ref {
        kind: Kind::Node,
        id: 0,
    };
    let longest = "a".repeat(alloc, 4_096)?;
    let longer = "a".repeat(alloc, 4_097)?;
    let rows = [
        (longest.as_bytes(), longest.as_bytes(), true),
        (longer.as_bytes(), longest.as_bytes(), false),
        (longest.as_bytes(), longer.as_bytes(), false),
    ];
    for (key, value, read) in rows {
        let mut bytes = Vec::new(alloc);
        append_tag_key(key, value, name, &mut bytes)?;
        assert_eq!(rt; read_tag_key(&bytes).is_some(), read);
    }
    Ok(())
}
