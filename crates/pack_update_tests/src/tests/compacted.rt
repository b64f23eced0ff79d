//! The files of a publication as one pack.

use super::devices::Frail;
use super::larger::{deletes, nodes};
use super::published::{Published, SET, SEVENTH, joined, pack_of};
use super::refused::{Further, place_of_top, swapped_file};
use node_pack::{PackSource, Place, ReadAt, write_further};
use osm_index::{Edition, Manifest, write_manifest};
use outside_shelf::{NodeSource, Refused};
use pack_compact::{CompactFault, compact_files};
use pack_devices::KeptRunsMaker;
use std::alloc::Global;
use std::io::Write;
use std::test::Fail;
use test_devices::{NarrowWriter, Stop};
use tree_node::{Digest, NewNode, digest_of};

/// More bytes than a pack of the tests has.
const PACK_LIMIT: usize = 1_048_576;

/// Which store refuses, if any: the number of its maker, its own number there, and the calls before, and one more.
#[derive(Clone, Copy)]
struct Refusing {
    maker: usize,
    store: usize,
    calls: u64,
}

/// None does.
const NONE: Refusing = Refusing {
    maker: 5,
    store: 0,
    calls: 0,
};

/// The maker with this number, one of whose stores may refuse.
fn maker(alloc: Global, number: usize, refusing: Refusing) -> KeptRunsMaker {
    if number == refusing.maker {
        KeptRunsMaker::new(alloc, refusing.store, refusing.calls)
    } else {
        KeptRunsMaker::new(alloc, usize::MAX, 0)
    }
}

/// Writes what is under this root as one pack, in so many bytes of memory.
fn compact<F: ReadAt, W: Write>(
    alloc: Global,
    files: &mut F,
    root: &Digest,
    manifest: Place,
    refusing: Refusing,
    memory: usize,
    pack: &mut W,
) -> Result<(), CompactFault> {
    let makers = [
        maker(alloc, 0, refusing),
        maker(alloc, 1, refusing),
        maker(alloc, 2, refusing),
        maker(alloc, 3, refusing),
    ];
    let digests = maker(alloc, 4, refusing);
    compact_files(alloc, files, root, manifest, digests, makers, memory, pack)
}

/// Whether the pack that is written of the files in so many bytes of memory is that of the snapshot.
fn is_compacted(alloc: Global, published: &Published, memory: usize) -> Result<bool, Fail> {
    let wanted = pack_of(alloc, &published.snapshot)?;
    let mut pack = Vec::with_capacity(alloc, PACK_LIMIT)?;
    compact(
        alloc,
        &mut joined(alloc, published.files.as_slice())?,
        published.snapshot.root(),
        published.manifest,
        NONE,
        memory,
        &mut pack,
    )?;
    Ok(pack == wanted)
}

/// A pack alone is copied, in both editions; and after each change so is what the files hold then.
#[test]
fn files_become_one(rt: HostRuntime) -> Result<(), Fail> {
    let alloc = rt.alloc();
    for (set, edition) in [
        (SET, Edition::One),
        ("", Edition::One),
        ("", SEVENTH),
        ("n1 x0 y0\n", SEVENTH),
    ] {
        let published = Published::new(alloc, set, edition)?;
        for memory in [0, 1_000, 1_000_000] {
            assert!(rt; is_compacted(alloc, &published, memory)?);
        }
    }
    let mut published = Published::new(alloc, SET, SEVENTH)?;
    assert!(rt; is_compacted(alloc, &published, 1_000)?);
    for changes in [
        "n3 Tamenity=bench x13.5 y52.5\nw11 Thighway=path Nn1,n3\nr101 Ttype=site Mn3@a,w10@\n",
        "n3 dD\nw11 dD\nr101 dD\n",
        "",
        "n1 dD\nn2 dD\nw10 dD\nr100 dD\n",
        "n1 x13.4 y52.5\n",
    ] {
        assert!(rt; published.add(alloc, changes)?, "{changes}");
        assert!(rt; is_compacted(alloc, &published, 1_000)?, "{changes}");
    }
    Ok(())
}

/// Trees of several levels, some of whose nodes change, and which shrink to one leaf.
#[test]
fn larger_files_become_one(rt: HostRuntime) -> Result<(), Fail> {
    let alloc = rt.alloc();
    let set = nodes(alloc, 1, 1201)?;
    let mut published = Published::new(alloc, set.as_str(), SEVENTH)?;
    let gone = deletes(alloc, 4, 1198)?;
    for changes in ["n3 dD\nn700 v2 x1 y1\n", gone.as_str()] {
        assert!(rt; published.add(alloc, changes)?);
        assert!(rt; is_compacted(alloc, &published, 10_000)?);
    }
    Ok(())
}

/// How what a file has under this root is refused, if nothing is written.
fn refusal<F: ReadAt>(
    alloc: Global,
    file: &mut F,
    root: &Digest,
    manifest: Place,
) -> Option<CompactFault> {
    let mut pack = Vec::new(alloc);
    let written = compact(alloc, file, root, manifest, NONE, 1_000, &mut pack);
    if pack.is_empty() { written.err() } else { None }
}

/// A root that is that of another node, and places that aren't the manifest's.
#[test]
fn another_node_is_told(rt: HostRuntime) -> Result<(), Fail> {
    let alloc = rt.alloc();
    let published = Published::new(alloc, SET, SEVENTH)?;
    let root = published.snapshot.root();
    let top = &published.snapshot.manifest().tops[0];
    let at_top = place_of_top(alloc, &published)?;
    let manifest = published.manifest;
    // Without the places after it the manifest leads nowhere.
    let short = Place {
        at: manifest.at,
        len: 145,
    };
    let without_last = Place {
        at: manifest.at,
        len: 192,
    };
    let beyond = Place {
        at: published.pack().len() as u64,
        len: 193,
    };
    for (root, place, fault) in [
        (top, at_top, CompactFault::NoManifest),
        (root, at_top, CompactFault::Source(Refused::Other)),
        (top, manifest, CompactFault::Source(Refused::Other)),
        (root, short, CompactFault::Source(Refused::Absent)),
        (root, without_last, CompactFault::Source(Refused::Absent)),
        (root, beyond, CompactFault::Source(Refused::Device)),
    ] {
        let told = refusal(alloc, &mut published.pack(), root, place);
        assert!(rt; told == Some(fault), "{fault}");
    }
    Ok(())
}

/// Under a manifest that names other trees there are none.
#[test]
fn other_trees_are_told(rt: HostRuntime) -> Result<(), Fail> {
    let alloc = rt.alloc();
    let mut published = Published::new(alloc, SET, SEVENTH)?;
    let Further { file, header } = swapped_file(alloc, &published)?;
    published.files.push(file)?;
    let files = &mut joined(alloc, published.files.as_slice())?;
    let told = refusal(alloc, files, &header.root, header.manifest);
    assert!(rt; told == Some(CompactFault::NoTree));
    Ok(())
}

/// An inner node of the object tree at this level, with 64 children of this digest, each of which is said to have an entry.
fn inner(alloc: Global, level: u8, child: &Digest) -> Result<Vec<u8>, Fail> {
    let mut node = Vec::new(alloc);
    node.extend_from_slice(&[1, level, 0, 64])?;
    for number in 0..64_u8 {
        node.extend_from_slice(&[0, 1, number])?;
        node.extend_from_slice(&1_u64.to_be_bytes())?;
        node.extend_from_slice(&child.0)?;
    }
    Ok(node)
}

/// Twelve levels of nodes with 64 children each, all of which are the same node, over a leaf without entries: that there is no such
/// tree is told before 64^12 nodes are read.
#[test]
fn a_tree_without_end_is_told(rt: HostRuntime) -> Result<(), Fail> {
    let alloc = rt.alloc();
    let published = Published::new(alloc, "", SEVENTH)?;
    let mut nodes = Vec::new(alloc);
    // The leaf is that of the empty set.
    let mut top = digest_of(&[1, 0, 0, 0]);
    for level in 1..13_u8 {
        let node = inner(alloc, level, &top)?;
        top = digest_of(node.as_slice());
        nodes.push(NewNode::new(node))?;
    }
    let [_, tags, cells, backs] = published.snapshot.manifest().tops;
    let mut manifest = Vec::new(alloc);
    let named = Manifest {
        edition: SEVENTH,
        tops: [top, tags, cells, backs],
    };
    write_manifest(&named, &mut manifest)?;
    let root = digest_of(manifest.as_slice());
    nodes.push(NewNode::new(manifest))?;
    let mut known = PackSource::open(alloc, published.pack())?;
    known.read_node(published.snapshot.root(), 1000, &mut Vec::new(alloc))?;
    let mut file = Vec::new(alloc);
    let header = write_further(alloc, 1, &root, nodes.as_slice(), &known, &mut file)?;
    let files = vec![in alloc; published.pack().to_vec(alloc)?, file]?;
    let files = &mut joined(alloc, files.as_slice())?;
    let told = refusal(alloc, files, &root, header.manifest);
    assert!(rt; told == Some(CompactFault::NoTree));
    Ok(())
}

/// Where a call of the file fails it is told so: it is asked for each node how long it is, and then for the node. After the manifest
/// there are four trees, which have one leaf each.
#[test]
fn failed_reads_are_told(rt: HostRuntime) -> Result<(), Fail> {
    let alloc = rt.alloc();
    let published = Published::new(alloc, SET, SEVENTH)?;
    for fails_at in 1..11 {
        let mut file = Frail::new(published.pack(), fails_at);
        let told = refusal(
            alloc,
            &mut file,
            published.snapshot.root(),
            published.manifest,
        );
        assert!(rt;
            told == Some(CompactFault::Source(Refused::Device)),
            "{fails_at}"
        );
    }
    let mut file = Frail::new(published.pack(), 11);
    let told = refusal(
        alloc,
        &mut file,
        published.snapshot.root(),
        published.manifest,
    );
    assert!(rt; told.is_none());
    Ok(())
}

/// The pack without its end, or with a byte that is another one, is refused, or all is right.
#[test]
fn other_bytes_are_told(rt: HostRuntime) -> Result<(), Fail> {
    let alloc = rt.alloc();
    let published = Published::new(alloc, SET, SEVENTH)?;
    let whole = published.pack();
    let mut file = whole.to_vec(alloc)?;
    let mut refused = 0_usize;
    for at in 0..whole.len() {
        file[at] = !file[at];
        for front in [file.as_slice(), &whole[..at]] {
            let mut read = front;
            let mut pack = Vec::with_capacity(alloc, PACK_LIMIT)?;
            let root = published.snapshot.root();
            let written = compact(
                alloc,
                &mut read,
                root,
                published.manifest,
                NONE,
                1_000,
                &mut pack,
            );
            match written {
                Ok(()) => assert!(rt; pack.as_slice() == whole, "{at}"),
                Err(CompactFault::Source(_)) if pack.is_empty() => {
                    refused = refused.saturating_add(1);
                }
                Err(fault) => assert!(rt; false, "{at} {fault}"),
            }
        }
        file[at] = !file[at];
    }
    assert!(rt; refused > whole.len());
    Ok(())
}

/// Where a store isn't made, or refuses a call, it is told so. Each is asked for in the end: then all is right.
#[test]
fn failed_stores_are_told(rt: HostRuntime) -> Result<(), Fail> {
    let alloc = rt.alloc();
    let published = Published::new(alloc, SET, SEVENTH)?;
    let whole = published.pack();
    let mut failed = 0_usize;
    for maker in 0..5 {
        for store in 0..2 {
            for calls in 0..40 {
                let refusing = Refusing {
                    maker,
                    store,
                    calls,
                };
                let mut pack = Vec::with_capacity(alloc, PACK_LIMIT)?;
                let root = published.snapshot.root();
                let written = compact(
                    alloc,
                    &mut published.pack(),
                    root,
                    published.manifest,
                    refusing,
                    0,
                    &mut pack,
                );
                match written {
                    Ok(()) => assert!(rt; pack.as_slice() == whole),
                    Err(CompactFault::Device) => {
                        assert!(rt; whole.starts_with(pack.as_slice()));
                        failed = failed.saturating_add(1);
                    }
                    Err(fault) => assert!(rt; false, "{maker} {store} {calls} {fault}"),
                }
            }
        }
    }
    assert!(rt; failed > 30);
    Ok(())
}

/// Where a call of the writer fails or takes nothing it is told so, and a beginning of the pack is written.
#[test]
fn failed_writes_are_told(rt: HostRuntime) -> Result<(), Fail> {
    let alloc = rt.alloc();
    let published = Published::new(alloc, SET, SEVENTH)?;
    let whole = published.pack();
    let mut failed = 0_u32;
    for stops_at in 1..250 {
        for stop in [Stop::Fails, Stop::TakesNothing] {
            let mut writer = NarrowWriter {
                taken: Vec::new(alloc),
                at_once: 7,
                stops_at,
                stop,
                calls: 0,
            };
            let root = published.snapshot.root();
            let written = compact(
                alloc,
                &mut published.pack(),
                root,
                published.manifest,
                NONE,
                1_000,
                &mut writer,
            );
            assert!(rt; whole.starts_with(writer.taken.as_slice()), "{stops_at}");
            if writer.calls == stops_at {
                failed = failed.saturating_add(1);
                assert!(rt; written == Err(CompactFault::NotWritten), "{stops_at}");
            } else {
                assert!(rt; written.is_ok(), "{stops_at}");
                assert_eq!(rt; writer.taken.len(), whole.len());
            }
        }
    }
    assert!(rt; failed > 100);
    Ok(())
}

/// Run with each allocation refused in turn: then no more than a beginning of the pack is written, and all is the other time. Stores
/// and writers in memory tell its want as a device, and as what isn't written.
#[test]
fn compacts_after_refused_memory(rt: HostRuntime) -> Result<(), Fail> {
    let alloc = rt.alloc();
    let published = Published::new(alloc, SET, SEVENTH)?;
    let root = published.snapshot.root();
    let manifest = published.manifest;
    for _ in 0..2 {
        let mut pack = Vec::with_capacity(alloc, PACK_LIMIT)?;
        let files = &mut published.pack();
        match compact(alloc, files, root, manifest, NONE, 1_000, &mut pack) {
            Ok(()) => assert!(rt; pack.as_slice() == published.pack()),
            Err(CompactFault::Memory | CompactFault::Device | CompactFault::NotWritten) => {
                assert!(rt; published.pack().starts_with(pack.as_slice()));
            }
            Err(fault) => assert!(rt; false, "{fault}"),
        }
    }
    Ok(())
}
