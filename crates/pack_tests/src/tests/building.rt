//! Packs of sets beside those that are made in memory.

use node_pack::write_pack;
use opl_codec::{OplCause, read_set};
use osm_index::{BuildProgress, Snapshot, Unwatched};
use osm_keys::Edition;
use pack_build::{BuildFault, build_pack};
use scratch_files::ScratchFolder;
use std::alloc::{AllocError, Global};
use std::test::Fail;
use tree_node::{Digest, Recorder, Tree};

/// A small set, out of order, with a way that lists a node twice and a relation with members that aren't there.
const SET: &[u8] = b"r3 v1 dV c0 t i0 u Ttype=route Mn2@stop,w9@,r3@\n\
n2 v1 dV c0 t i0 u Tname=b x13.3816 y52.5142\n\
n1 v4 dV c0 t i0 u Tname=a,highway=crossing x-180 y-90\n\
w5 v2 dV c0 t i0 u Thighway=service Nn1,n2,n1\n\
n7 v1 dV c0 t i0 u T x180 y90\n";

/// The pack of the set of a text as memory gives it, and its root.
fn expected(alloc: Global, text: &[u8], edition: Edition) -> Result<(Digest, Vec<u8>), Fail> {
    let mut reader = text;
    let set = read_set(alloc, &mut reader)?;
    let snapshot = Snapshot::build(alloc, set, edition)?;
    let mut shelf = Recorder::new(alloc, snapshot.stock());
    let mut pack = Vec::new(alloc);
    write_pack(alloc, &mut shelf, snapshot.root(), &mut pack)?;
    Ok((*snapshot.root(), pack))
}

#[test]
fn writes_what_is_built_at_once(rt: HostRuntime) -> Result<(), Fail> {
    let alloc = rt.alloc();
    for edition in [
        Edition::One,
        Edition::Two { sequence: 0 },
        Edition::Two { sequence: 71 },
    ] {
        let (root, pack) = expected(alloc, SET, edition)?;
        for memory in [0, 1_000, 1_000_000] {
            let mut built = Vec::new(alloc);
            let folder = ScratchFolder::new(&rt, ".");
            let told = build_pack(
                alloc,
                &mut &SET[..],
                edition,
                &mut Unwatched,
                folder,
                [folder; 4],
                memory,
                &mut built,
            )?;
            assert_eq!(rt; told, root);
            assert_eq!(rt; built, pack);
        }
    }
    Ok(())
}

/// The text of so many nodes, less one, each with five tags.
fn nodes_text(alloc: Global, count: u64) -> Result<Vec<u8>, AllocError> {
    let mut text = Vec::new(alloc);
    for number in 1..count {
        let head = format!(in alloc; "n{number} v1 x1 y1 Ta={number},b={number}")?;
        let rest = format!(in alloc; ",c={number},d={number},e={number}\n")?;
        text.extend_from_slice(head.as_bytes())?;
        text.extend_from_slice(rest.as_bytes())?;
    }
    Ok(text)
}

/// 4,100 tags are in more leaves than one node has children, so the tag tree has three levels. Few of the entries fit
/// in memory at once.
#[test]
fn writes_trees_of_three_levels(rt: HostRuntime) -> Result<(), Fail> {
    let alloc = rt.alloc();
    let text = nodes_text(alloc, 821)?;
    let edition = Edition::Two { sequence: 3 };
    let (root, pack) = expected(alloc, &text, edition)?;
    let mut built = Vec::new(alloc);
    let mut reader = text.as_slice();
    let folder = ScratchFolder::new(&rt, ".");
    let told = build_pack(
        alloc,
        &mut reader,
        edition,
        &mut Unwatched,
        folder,
        [folder; 4],
        20_000,
        &mut built,
    )?;
    assert_eq!(rt; told, root);
    assert_eq!(rt; built, pack);
    Ok(())
}

/// Counts the trees that it is told of, and keeps the last.
#[derive(Clone, Copy)]
struct Told {
    trees: usize,
    last: Option<(Tree, usize)>,
}

impl BuildProgress for Told {
    fn begin(&mut self, tree: Tree, object_count: usize) {
        self.trees = self.trees.saturating_add(1);
        self.last = Some((tree, object_count));
    }
}

#[test]
fn tells_of_each_tree(rt: HostRuntime) -> Result<(), Fail> {
    let mut built = Vec::new(rt.alloc());
    let folder = ScratchFolder::new(&rt, ".");
    let mut told = Told {
        trees: 0,
        last: None,
    };
    build_pack(
        rt.alloc(),
        &mut &SET[..],
        Edition::One,
        &mut told,
        folder,
        [folder; 4],
        1_000,
        &mut built,
    )?;
    assert!(rt; told.trees == 4);
    assert!(rt; told.last == Some((Tree::Backs, 5)));
    Ok(())
}

#[test]
fn an_object_that_comes_twice_is_refused_at_its_line(rt: HostRuntime) -> Result<(), Fail> {
    let text = b"n1 v1 x1 y1\nn2 v1 x1 y1\nn1 v2 x1 y2\nn3 v1 x1 y2\n";
    let mut built = Vec::new(rt.alloc());
    let folder = ScratchFolder::new(&rt, ".");
    let edition = Edition::Two { sequence: 0 };
    match build_pack(
        rt.alloc(),
        &mut &text[..],
        edition,
        &mut Unwatched,
        folder,
        [folder; 4],
        0,
        &mut built,
    ) {
        Err(BuildFault::Load(load)) => {
            assert_eq!(rt; load.line, 3);
            assert!(rt; load.fault.cause == OplCause::OutsideModel);
        }
        _ => assert!(rt; false),
    }
    assert!(rt; built.is_empty());
    Ok(())
}

#[test]
fn without_a_folder_the_device_is_at_fault(rt: HostRuntime) -> Result<(), Fail> {
    let mut built = Vec::new(rt.alloc());
    let folder = ScratchFolder::new(&rt, "./nowhere");
    let edition = Edition::Two { sequence: 0 };
    let told = build_pack(
        rt.alloc(),
        &mut &SET[..],
        edition,
        &mut Unwatched,
        folder,
        [folder; 4],
        1_000,
        &mut built,
    );
    assert!(rt; matches!(told, Err(BuildFault::Device)));
    assert!(rt; built.is_empty());
    Ok(())
}

#[test]
fn builds_after_refused_memory(rt: HostRuntime) {
    for _ in 0..2 {
        let mut built = Vec::new(rt.alloc());
        let folder = ScratchFolder::new(&rt, ".");
        let edition = Edition::Two { sequence: 0 };
        match build_pack(
            rt.alloc(),
            &mut &SET[..],
            edition,
            &mut Unwatched,
            folder,
            [folder; 4],
            1_000,
            &mut built,
        ) {
            Ok(_) => assert!(rt; built.as_slice().starts_with(b"OSMK")),
            // Where a store finds no memory, that is a fault of the device, and where what is written does, of the writer.
            Err(fault) => assert!(rt;
                fault == BuildFault::Memory
                    || fault == BuildFault::Device
                    || fault == BuildFault::NotWritten
            ),
        }
    }
}
