//! Further files beside the small pack, and beside the pack of a set that changes.

use super::super::small_pack::{NODES, PACK, ROOT};
use super::writing::Narrow;
use bumpalo::Bump;
use node_pack::{FILE_LIMIT, PackSource, Place, ReadAt, WriteFault, write_further, write_pack};
use opl_codec::{read_changes, read_set};
use osm_index::{Delta, Snapshot};
use osm_keys::Edition;
use outside_shelf::{NodeSource, OutsideShelf, Refused};
use pack_devices::pack_of;
use pack_files::JoinedFiles;
use std::alloc::{AllocError, Global};
use std::test::Fail;
use tree_node::{Digest, NewNode, Shelf, Stock};

/// The further file with the number 1 that tests/system/packs.py made: the key `c` comes in the place of the small pack's `b`. It
/// has the new manifest, the new top of the tree of tags, and the leaf with the key `c`.
const FURTHER: &[u8] =
    b"\x4f\x53\x4d\x4b\x00\x02\x00\x00\x65\xdb\x9e\xfd\x43\x74\x48\x6d\xaf\xb9\x57\xbd\xf2\x08\x91\x01\xac\x59\x35\x3b\x1e\x65\x86\x42\xd5\x36\x88\x3c\xe7\x2c\x02\x4a\x00\x00\x00\x00\x00\x00\x01\x7a\x00\x01\x00\x00\x00\x00\x00\x3c\x00\x00\x00\xb9\x00\x00\x00\x85\x4f\x53\x4d\x4d\x01\x67\xab\xdd\x72\x10\x24\xf0\xff\x4e\x0b\x3f\x4c\x2f\xc1\x3b\xc5\xba\xd4\x2d\x0b\x78\x51\xd4\x56\xd8\x8d\x20\x3d\x15\xaa\xa4\x50\x03\x4e\x89\xec\xeb\x5c\x39\xd6\x4e\xf1\xde\x22\x13\x9f\xed\x02\x65\x23\x50\x6c\xe4\xc3\x92\x84\xcb\xf0\x04\xb2\x39\xb2\xab\x60\x9d\x9f\x29\x05\x27\xa6\xbe\x62\x6a\x8f\x59\x85\xb2\x6e\x19\xb2\x37\xb4\x48\x72\xb0\x36\x31\x81\x1d\xf4\x41\x6f\xc1\x71\x31\x78\xfb\x5e\x51\x24\x25\xfc\x94\x49\x31\x6e\xc9\x59\x69\xeb\xe7\x1e\x2d\x57\x6d\xba\xb8\x33\xd6\x1e\x2a\x5b\x93\x30\xfd\x70\xee\x02\x00\x00\x00\x00\x00\x00\x01\x6b\x00\x00\x00\x08\x00\x01\x00\x00\x00\x00\x00\xf5\x00\x00\x00\x76\x00\x00\x00\x00\x00\x00\x01\x91\x00\x00\x00\x08\x00\x00\x00\x00\x00\x00\x01\x99\x00\x00\x00\x08\x00\x00\x00\x5a\x02\x01\x00\x02\x00\x01\x61\x00\x00\x00\x00\x00\x00\x00\x01\xba\x43\x7a\x7a\xbc\xcc\x0d\x72\x3d\x3a\x2e\xad\x95\x07\x22\xbf\x1c\x12\x59\x4a\x18\xdc\xc2\x41\xc7\xa4\xaf\xe1\xa5\x35\x7d\xfe\x00\x01\x63\x00\x00\x00\x00\x00\x00\x00\x01\x16\x92\xfa\xe5\x07\x24\xef\xce\xcf\x20\xa4\x83\xa4\xb4\x45\x8b\x8f\xa6\x30\x59\x45\x9e\xd3\xdc\xcc\x68\xba\xa9\xa9\x63\x5e\x86\x00\x00\x00\x00\x00\x00\x01\x73\x00\x00\x00\x0f\x00\x01\x00\x00\x00\x00\x01\x6b\x00\x00\x00\x0f\x00\x00\x00\x0b\x02\x00\x00\x01\x00\x01\x63\x00\x00\x00\x00";

/// The new root.
const NEW_ROOT: Digest = Digest(
    *b"\x65\xdb\x9e\xfd\x43\x74\x48\x6d\xaf\xb9\x57\xbd\xf2\x08\x91\x01\xac\x59\x35\x3b\x1e\x65\x86\x42\xd5\x36\x88\x3c\xe7\x2c\x02\x4a",
);

/// Where the record of the new manifest stands in both files.
const MANIFEST: Place = Place {
    at: FILE_LIMIT + 60,
    len: 185,
};

/// The new nodes.
fn new_nodes(alloc: Global) -> Result<Vec<NewNode>, AllocError> {
    let mut nodes = Vec::new(alloc);
    for bytes in [&FURTHER[64..197], &FURTHER[249..339], &FURTHER[367..378]] {
        nodes.push(NewNode::new(bytes.to_vec(alloc)?))?;
    }
    Ok(nodes)
}

/// A source over the small pack that knows the places of its nodes, but those of the leaves with keys only if they are asked for.
fn known(alloc: Global, with_leaves: bool) -> Result<PackSource<&'static [u8]>, Fail> {
    let mut source = PackSource::open(alloc, PACK)?;
    let mut node = Vec::new(alloc);
    source.read_node(&ROOT, 1000, &mut node)?;
    if with_leaves {
        source.read_node(&NODES[1].0, 1000, &mut node)?;
    }
    Ok(source)
}

/// A source over files, from the new manifest on.
fn opened(alloc: Global, files: Vec<&[u8]>) -> Result<PackSource<JoinedFiles<&[u8]>>, Fail> {
    let files = JoinedFiles::new(alloc, files);
    Ok(PackSource::open_at(alloc, files, NEW_ROOT, MANIFEST)?)
}

/// The file is written as packs.py made it.
#[test]
fn writes_a_further_file(rt: HostRuntime) -> Result<(), Fail> {
    let alloc = rt.alloc();
    let nodes = new_nodes(alloc)?;
    let mut file = b"before".to_vec(alloc)?;
    let header = write_further(
        alloc,
        1,
        &NEW_ROOT,
        nodes.as_slice(),
        &known(alloc, true)?,
        &mut file,
    )?;
    assert_eq!(rt; header.size, FURTHER.len() as u64);
    assert!(rt; header.root == NEW_ROOT && header.manifest == MANIFEST);
    assert!(rt; file.as_slice().strip_prefix(b"before") == Some(FURTHER));
    Ok(())
}

/// Both files together have the nodes of the new publication, and no place is known of one that is gone.
#[test]
fn gives_the_new_nodes(rt: HostRuntime) -> Result<(), Fail> {
    let alloc = rt.alloc();
    let arena = Bump::new(alloc);
    let source = opened(alloc, vec![in alloc; PACK, FURTHER]?)?;
    let mut shelf = OutsideShelf::new(alloc, &arena, source, None);
    for node in new_nodes(alloc)?.iter() {
        assert!(rt; shelf.fetch(&node.digest) == Ok(node.bytes.as_slice()));
    }
    for place in [&NODES[2], &NODES[3], &NODES[5], &NODES[6]] {
        assert!(rt; shelf.fetch(&place.0) == Ok(place.2), "{}", place.1);
    }
    assert!(rt; shelf.fetch(&NODES[4].0).is_err());
    assert_eq!(rt; shelf.refused(), Some(Refused::Absent));
    Ok(())
}

/// The nodes of the small pack, or those at some places.
fn small_nodes(alloc: Global, places: &[usize]) -> Result<Vec<NewNode>, AllocError> {
    let mut nodes = Vec::new(alloc);
    for at in places {
        if let Some(row) = NODES.get(*at) {
            nodes.push(NewNode::new(row.2.to_vec(alloc)?))?;
        }
    }
    Ok(nodes)
}

/// One more file brings back what the first one took away, and refers to the pack for the rest.
#[test]
fn writes_a_second_further_file(rt: HostRuntime) -> Result<(), Fail> {
    let alloc = rt.alloc();
    let mut source = opened(alloc, vec![in alloc; PACK, FURTHER]?)?;
    let mut node = Vec::new(alloc);
    for new in new_nodes(alloc)?.iter() {
        source.read_node(&new.digest, 1000, &mut node)?;
    }
    let nodes = small_nodes(alloc, &[4, 1, 0])?;
    let mut second = Vec::new(alloc);
    write_further(alloc, 2, &ROOT, nodes.as_slice(), &source, &mut second)?;
    let arena = Bump::new(alloc);
    let files = JoinedFiles::new(alloc, vec![in alloc; PACK, FURTHER, second.as_slice()]?);
    let manifest = Place {
        at: 2 * FILE_LIMIT + 193,
        len: 185,
    };
    let source = PackSource::open_at(alloc, files, ROOT, manifest)?;
    let mut shelf = OutsideShelf::new(alloc, &arena, source, None);
    for place in &NODES {
        assert!(rt; shelf.fetch(&place.0) == Ok(place.2), "{}", place.1);
    }
    Ok(())
}

/// With the number 0 nothing is earlier: the file is the pack, but for the version. The last number is that of its places.
#[test]
fn writes_the_first_and_the_last_number(rt: HostRuntime) -> Result<(), Fail> {
    let alloc = rt.alloc();
    let nodes = small_nodes(alloc, &[0, 1, 2, 3, 4, 5, 6])?;
    let mut file = Vec::new(alloc);
    write_further(
        alloc,
        0,
        &ROOT,
        nodes.as_slice(),
        &known(alloc, true)?,
        &mut file,
    )?;
    let rest = file.as_slice().strip_prefix(b"OSMK\x00\x02\x00\x00");
    assert!(rt; rest == Some(&PACK[8..]));
    let nodes = new_nodes(alloc)?;
    let mut file = Vec::new(alloc);
    write_further(
        alloc,
        65534,
        &NEW_ROOT,
        nodes.as_slice(),
        &known(alloc, true)?,
        &mut file,
    )?;
    let place = manifest_in(file.as_slice())?;
    assert_eq!(rt; (place.at, place.len), (65534 * FILE_LIMIT + 60, 185));
    Ok(())
}

/// How a file of these nodes is refused, if nothing is written then.
fn refusal<F: ReadAt + Drop>(
    alloc: Global,
    root: &Digest,
    nodes: &[NewNode],
    known: &PackSource<F>,
) -> Option<WriteFault> {
    let mut file = Vec::new(alloc);
    let fault = write_further(alloc, 1, root, nodes, known, &mut file).err();
    if file.is_empty() { fault } else { None }
}

/// Where a child has no place, among the nodes or earlier, the file is refused.
#[test]
fn tells_a_child_without_a_place(rt: HostRuntime) -> Result<(), Fail> {
    let alloc = rt.alloc();
    let mut nodes = new_nodes(alloc)?;
    let fault = refusal(alloc, &NEW_ROOT, nodes.as_slice(), &known(alloc, false)?);
    assert_eq!(rt; fault, Some(WriteFault::Missing));
    // Without the leaf, which comes last, and without the top too.
    for _ in 0..2 {
        nodes.pop();
        let fault = refusal(alloc, &NEW_ROOT, nodes.as_slice(), &known(alloc, true)?);
        assert_eq!(rt; fault, Some(WriteFault::Missing));
    }
    Ok(())
}

/// Where none of the nodes has the root, or something is wrong with one, the file is refused.
#[test]
fn tells_malformed_nodes(rt: HostRuntime) -> Result<(), Fail> {
    let alloc = rt.alloc();
    let known = known(alloc, true)?;
    let mut nodes = new_nodes(alloc)?;
    for root in [ROOT, Digest([0; 32])] {
        let fault = refusal(alloc, &root, nodes.as_slice(), &known);
        assert_eq!(rt; fault, Some(WriteFault::Malformed));
    }
    for bytes in [
        // One of the nodes again, one that is in the pack, and no node.
        &FURTHER[249..339],
        NODES[2].2,
        b"no node",
        b"",
    ] {
        nodes.push(NewNode::new(bytes.to_vec(alloc)?))?;
        let fault = refusal(alloc, &NEW_ROOT, nodes.as_slice(), &known);
        assert_eq!(rt; fault, Some(WriteFault::Malformed), "{}", bytes.len());
        nodes.pop();
    }
    assert_eq!(rt; refusal(alloc, &NEW_ROOT, nodes.as_slice(), &known), None);
    Ok(())
}

/// Where a call of the writer fails or takes nothing it is told so, and a beginning of the file is written.
#[test]
fn tells_a_failed_write(rt: HostRuntime) -> Result<(), Fail> {
    let alloc = rt.alloc();
    let nodes = new_nodes(alloc)?;
    let known = known(alloc, true)?;
    let mut failed = 0_u32;
    for stops_at in 1..120 {
        for fails in [true, false] {
            let mut writer = Narrow {
                taken: Vec::new(alloc),
                calls: 0,
                stops_at,
                fails,
            };
            let written = write_further(alloc, 1, &NEW_ROOT, nodes.as_slice(), &known, &mut writer);
            assert!(rt; FURTHER.starts_with(writer.taken.as_slice()), "{stops_at}");
            if writer.calls == stops_at {
                failed = failed.saturating_add(1);
                assert!(rt; written == Err(WriteFault::NotWritten), "{stops_at}");
            } else {
                assert!(rt;
                    written.is_ok_and(|header| header.root == NEW_ROOT),
                    "{stops_at}"
                );
                assert_eq!(rt; writer.taken.len(), FURTHER.len());
            }
        }
    }
    assert!(rt; failed > 110);
    Ok(())
}

/// Run with each allocation refused in turn: nothing is written then, and the next time all is.
#[test]
fn writes_a_further_file_after_refused_memory(rt: HostRuntime) -> Result<(), Fail> {
    let alloc = rt.alloc();
    let nodes = new_nodes(alloc)?;
    let known = known(alloc, true)?;
    let mut file = Vec::with_capacity(alloc, FURTHER.len())?;
    if let Err(fault) = write_further(alloc, 1, &NEW_ROOT, nodes.as_slice(), &known, &mut file) {
        assert!(rt; fault == WriteFault::Memory);
        assert!(rt; file.is_empty());
        write_further(alloc, 1, &NEW_ROOT, nodes.as_slice(), &known, &mut file)?;
    }
    assert_eq!(rt; file.as_slice(), FURTHER);
    Ok(())
}

/// Four objects.
const SET: &[u8] = b"n1 v1 dV c5 t2020-01-02T03:04:05Z i7 uAnn Thighway=crossing x13.4 y52.5\n\
n2 x13.4000001 y52.5\n\
w10 Thighway=primary,name=A%20%B Nn1,n2,n1\n\
r100 Ttype=route Mw10@outer,n99@stop,r100@\n";

/// The nodes of a stock with these digests.
fn stocked(alloc: Global, stock: &Stock, keys: &[Digest]) -> Result<Vec<NewNode>, Fail> {
    let mut nodes = Vec::new(alloc);
    let mut shelf = stock.shelf(alloc);
    for key in keys {
        let bytes = shelf.fetch(key)?;
        nodes.push(NewNode::new(bytes.to_vec(alloc)?))?;
    }
    Ok(nodes)
}

/// A change of a set gives nodes that come. Beside the pack of the set, the further file with them has the changed set: a pack that
/// is copied from both is the pack of the changed set.
#[test]
fn has_a_changed_set(rt: HostRuntime) -> Result<(), Fail> {
    let alloc = rt.alloc();
    for (changes, count) in [
        ("", 1),
        ("n2 x13.4000002 y52.5\n", 3),
        ("n1 dD\nn3 Ta=b x1 y1\n", 4),
    ] {
        let set = read_set(alloc, &mut &SET[..])?;
        let mut snapshot = Snapshot::build(alloc, set, Edition::Two { sequence: 7 })?;
        let pack = pack_of(alloc, snapshot.stock(), snapshot.root())?;
        let mut known = PackSource::open(alloc, pack.as_slice())?;
        known.read_node(snapshot.root(), 1000, &mut Vec::new(alloc))?;
        let changes = read_changes(alloc, &mut changes.as_bytes())?;
        let Delta { added, gone: _ } = snapshot.apply(alloc, changes.as_slice())?;
        assert_eq!(rt; added.len(), count);
        let nodes = stocked(alloc, snapshot.stock(), added.as_slice())?;
        let mut file = Vec::new(alloc);
        write_further(
            alloc,
            1,
            snapshot.root(),
            nodes.as_slice(),
            &known,
            &mut file,
        )?;
        let wanted = pack_of(alloc, snapshot.stock(), snapshot.root())?;
        let copied = copied(alloc, pack.as_slice(), file.as_slice(), snapshot.root())?;
        assert_eq!(rt; copied, wanted);
    }
    Ok(())
}

/// Where the header of a further file says that the manifest's record stands.
fn manifest_in(file: &[u8]) -> Result<Place, Fail> {
    let (_, rest) = file.split_first_chunk::<48>().ok_or("cut")?;
    let (at, rest) = rest.split_first_chunk().ok_or("cut")?;
    let (len, _) = rest.split_first_chunk().ok_or("cut")?;
    Ok(Place {
        at: u64::from_be_bytes(*at),
        len: u32::from_be_bytes(*len),
    })
}

/// The pack of a root's nodes as a pack and a further file have them.
fn copied(alloc: Global, pack: &[u8], file: &[u8], root: &Digest) -> Result<Vec<u8>, Fail> {
    let manifest = manifest_in(file)?;
    let arena = Bump::new(alloc);
    let files = JoinedFiles::new(alloc, vec![in alloc; pack, file]?);
    let source = PackSource::open_at(alloc, files, *root, manifest)?;
    let mut shelf = OutsideShelf::new(alloc, &arena, source, None);
    let mut copied = Vec::new(alloc);
    write_pack(alloc, &mut shelf, root, &mut copied)?;
    Ok(copied)
}
