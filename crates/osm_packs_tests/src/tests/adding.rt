//! Changes that are added to a pack.

use super::four_objects::{PACK, ROOT};
use super::querying::NO_LIMITS;
use command_devices::PlacingWriter;
use node_pack::{Place, ReadAt};
use opl_codec::{LoadFault, OplCause, OplFault};
use osm_commands::Status;
use osm_forms::Form;
use osm_index::ApplyFault;
use osm_model::{Kind, Ref};
use osm_pack_changes::{NotAdded, add_to_pack};
use osm_packs::query_files;
use outside_shelf::Refused;
use pack_files::JoinedFiles;
use pack_head::{Head, HeadFile, read_head};
use pack_update::{AddFault, Readers};
use std::alloc::{AllocError, Global};
use std::test::Fail;
use test_devices::Stop;
use tree_node::Digest;

/// A node more, one that goes, and a way more.
pub(super) const CHANGES: &[u8] =
    b"n9 v1 dV Tname=C x1 y2\nn2 v2 dD\nw7 v2 dV Thighway=path Nn1,n9\n";

/// The line of the root that they give, and the beginning and the end of the head, as tests/system/pack_heads_test.py works them
/// out. Where the manifest stands depends on the order of the nodes.
pub(super) const NEW_ROOT_LINE: &[u8] =
    b"c21876cbae25f05e50f006d091f032e9b85924a316017ae59d8f92edf8a9374e\n";

const HEAD_FRONT: &[u8] =
    b"osm_mirror head 1\nroot c21876cbae25f05e50f006d091f032e9b85924a316017ae59d8f92edf8a9374e\nsequence 8\nmanifest ";

const HEAD_END: &[u8] = b" 193\nfile 855 town.pack\nfile 1001 town.pack.1\n";

/// The head of the pack alone.
pub(super) fn first_head(alloc: Global) -> Result<Head<'static>, AllocError> {
    let mut files = Vec::new(alloc);
    files.push(HeadFile {
        len: 855,
        name: b"town.pack",
    })?;
    Ok(Head {
        root: ROOT,
        sequence: 7,
        manifest_at: 60,
        manifest_len: 193,
        files,
    })
}

fn readers(pack: &[u8]) -> Readers<&[u8]> {
    Readers {
        plan: pack,
        rebuild: pack,
        places: pack,
    }
}

/// The writers of a command.
#[derive(Drop)]
pub(super) struct Writers {
    pub(super) further: PlacingWriter,
    pub(super) head: PlacingWriter,
    pub(super) output: PlacingWriter,
}

/// Where a writer stops, and whether what it has can't be put in its place.
#[derive(Clone, Copy)]
pub(super) struct Stops {
    pub(super) at: usize,
    pub(super) stop: Stop,
    pub(super) fails: bool,
}

pub(super) const NEVER: Stops = Stops {
    at: 0,
    stop: Stop::Fails,
    fails: false,
};

pub(super) fn writer(alloc: Global, stops: Stops) -> PlacingWriter {
    PlacingWriter::new(alloc, stops.at, stops.stop, stops.fails)
}

pub(super) fn new_writers(alloc: Global) -> Writers {
    Writers {
        further: writer(alloc, NEVER),
        head: writer(alloc, NEVER),
        output: writer(alloc, NEVER),
    }
}

pub(super) fn add(
    alloc: Global,
    mut changes: &[u8],
    head: &Head<'_>,
    name: &[u8],
    pack: &[u8],
    to: &mut Writers,
) -> Result<(), NotAdded> {
    add_to_pack(
        alloc,
        &mut changes,
        head,
        readers(pack),
        name,
        &mut to.further,
        &mut to.head,
        &mut to.output,
    )
}

/// Nothing was written but to the further file.
fn has_no_head(to: &Writers) -> bool {
    to.head.writer.taken.is_empty() && !to.head.is_placed && to.output.writer.taken.is_empty()
}

#[test]
fn adds_changes(rt: HostRuntime) -> Result<(), Fail> {
    let alloc = rt.alloc();
    let mut to = new_writers(alloc);
    add(
        alloc,
        CHANGES,
        &first_head(alloc)?,
        b"town.pack.1",
        PACK,
        &mut to,
    )?;
    assert!(rt; to.further.is_placed && to.head.is_placed);
    assert_eq!(rt; to.further.writer.taken.len(), 1001);
    assert_eq!(rt; to.output.writer.taken.as_slice(), NEW_ROOT_LINE);
    let text = to.head.writer.taken.as_slice();
    assert!(rt; text.starts_with(HEAD_FRONT) && text.ends_with(HEAD_END));
    let head = read_head(alloc, text)?;
    let mut files = Vec::new(alloc);
    files.push(PACK)?;
    files.push(to.further.writer.taken.as_slice())?;
    let mut answer = Vec::new(alloc);
    query_files(
        alloc,
        Form::Opl,
        &head.root,
        b"nwr;out ids;",
        NO_LIMITS,
        JoinedFiles::new(alloc, files),
        &head.root,
        Place {
            at: head.manifest_at,
            len: head.manifest_len,
        },
        &mut answer,
    )?;
    assert_eq!(rt; answer.as_slice(), b"n1\nn9\nw7\nw10\nr100\n".as_slice());
    Ok(())
}

/// A root that the change file announces is looked at: the right one is taken, and others, also shorter ones, are refused.
#[test]
fn looks_at_the_announced_root(rt: HostRuntime) -> Result<(), Fail> {
    let alloc = rt.alloc();
    let head = first_head(alloc)?;
    for (digits, want) in [
        (&NEW_ROOT_LINE[..64], Ok(())),
        (&NEW_ROOT_LINE[..63], Err(NotAdded::OtherRoot)),
        (b"".as_slice(), Err(NotAdded::OtherRoot)),
    ] {
        let mut changes = CHANGES.to_vec(alloc)?;
        changes.extend_from_slice(b"# root ")?;
        changes.extend_from_slice(digits)?;
        let mut to = new_writers(alloc);
        let told = add(alloc, &changes, &head, b"town.pack.1", PACK, &mut to);
        assert_eq!(rt; told, want);
        assert!(rt; told.is_ok() || (has_no_head(&to) && !to.further.is_placed));
    }
    assert_eq!(rt; NotAdded::OtherRoot.status(), Status::Refused);
    Ok(())
}

/// What is refused before anything is written, and how the program ends.
#[test]
fn refuses_changes(rt: HostRuntime) -> Result<(), Fail> {
    let alloc = rt.alloc();
    let head = first_head(alloc)?;
    let mut turned = PACK.to_vec(alloc)?;
    turned.as_mut_slice()[70] ^= 1;
    let unread = NotAdded::Opl(LoadFault {
        line: 2,
        fault: OplFault {
            cause: OplCause::UnknownObject,
            byte: 0,
        },
    });
    let not_there = NotAdded::Files(AddFault::Apply(ApplyFault::NotThere(Ref {
        kind: Kind::Node,
        id: 8,
    })));
    let other = NotAdded::Files(AddFault::Source(Refused::Other));
    for (changes, name, pack, fault) in [
        (b"n1 v2 dD\nq".as_slice(), b"a".as_slice(), PACK, unread),
        (b"n8 v2 dD\n".as_slice(), b"a".as_slice(), PACK, not_there),
        (CHANGES, b"a b".as_slice(), PACK, NotAdded::Name),
        (CHANGES, b"a".as_slice(), turned.as_slice(), other),
        (CHANGES, b"a".as_slice(), b"".as_slice(), NotAdded::Device),
    ] {
        let mut to = new_writers(alloc);
        let told = add(alloc, changes, &head, name, pack, &mut to);
        assert_eq!(rt; told, Err(fault));
        assert!(rt; to.further.writer.taken.is_empty() && has_no_head(&to));
    }
    assert_eq!(rt; not_there.status(), Status::Refused);
    assert_eq!(rt; NotAdded::Name.status(), Status::Refused);
    assert_eq!(rt; NotAdded::Device.status(), Status::Failed);
    Ok(())
}

/// Each writer stops in turn, and can't be put in its place: the head is written only after the new file is in its place, and the
/// root is told only after the head is.
#[test]
fn each_writer_stops(rt: HostRuntime) -> Result<(), Fail> {
    let alloc = rt.alloc();
    let head = first_head(alloc)?;
    for stops in [
        Stops {
            at: 1,
            stop: Stop::Fails,
            fails: false,
        },
        Stops {
            at: 50,
            stop: Stop::TakesNothing,
            fails: false,
        },
        Stops {
            at: 0,
            stop: Stop::HoldsBack,
            fails: false,
        },
        Stops {
            at: 0,
            stop: Stop::Fails,
            fails: true,
        },
    ] {
        let mut to = new_writers(alloc);
        to.further = writer(alloc, stops);
        let told = add(alloc, CHANGES, &head, b"town.pack.1", PACK, &mut to);
        assert_eq!(rt; told, Err(NotAdded::Device));
        assert!(rt; has_no_head(&to) && !to.further.is_placed);
    }
    for stops in [
        Stops {
            at: 1,
            stop: Stop::Fails,
            fails: false,
        },
        Stops {
            at: 9,
            stop: Stop::TakesNothing,
            fails: false,
        },
        Stops {
            at: 0,
            stop: Stop::HoldsBack,
            fails: false,
        },
        Stops {
            at: 0,
            stop: Stop::Fails,
            fails: true,
        },
    ] {
        let mut to = new_writers(alloc);
        to.head = writer(alloc, stops);
        let told = add(alloc, CHANGES, &head, b"town.pack.1", PACK, &mut to);
        assert_eq!(rt; told, Err(NotAdded::Device));
        assert!(rt; to.further.is_placed && !to.head.is_placed);
        assert!(rt; to.output.writer.taken.is_empty());
    }
    let mut to = new_writers(alloc);
    to.output = writer(
        alloc,
        Stops {
            at: 2,
            stop: Stop::Fails,
            fails: false,
        },
    );
    let told = add(alloc, CHANGES, &head, b"town.pack.1", PACK, &mut to);
    assert_eq!(rt; told, Err(NotAdded::Device));
    assert!(rt; to.further.is_placed && to.head.is_placed);
    Ok(())
}

/// Out of memory no head is written, and the same call may be made again.
#[test]
fn adds_changes_within_memory(rt: HostRuntime) -> Result<(), Fail> {
    let alloc = rt.alloc();
    let head = first_head(alloc)?;
    let mut to = new_writers(alloc);
    let mut told = add(alloc, CHANGES, &head, b"town.pack.1", PACK, &mut to);
    if told == Err(NotAdded::Memory) {
        assert!(rt; has_no_head(&to) && !to.further.is_placed);
        to = new_writers(alloc);
        told = add(alloc, CHANGES, &head, b"town.pack.1", PACK, &mut to);
    }
    // (the writers of the test take memory too)
    assert!(rt; told == Ok(()) || told == Err(NotAdded::Device));
    Ok(())
}
