//! The files of a head as one pack.

use super::adding::{
    CHANGES, NEVER, NEW_ROOT_LINE, Stops, Writers, add, first_head, new_writers, writer,
};
use super::four_objects::{PACK, ROOT, ROOT_LINE};
use super::querying::NO_LIMITS;
use command_devices::PlacingWriter;
use osm_commands::Status;
use osm_forms::Form;
use osm_pack_changes::{NotCompacted, compact_pack};
use osm_packs::query;
use outside_shelf::Refused;
use pack_compact::CompactFault;
use pack_files::JoinedFiles;
use pack_head::{Head, read_head};
use scratch_files::ScratchFolder;
use std::test::Fail;
use test_devices::Stop;

/// The writers of the command.
#[derive(Drop)]
struct Outputs {
    pack: PlacingWriter,
    output: PlacingWriter,
}

impl Outputs {
    /// The first one stops so.
    fn new(rt: &HostRuntime, pack: Stops) -> Outputs {
        Outputs {
            pack: writer(rt.alloc(), pack),
            output: writer(rt.alloc(), NEVER),
        }
    }
}

/// Writes the set of a head, whose files these are, as one pack.
fn compact(
    rt: &HostRuntime,
    head: &Head<'_>,
    contents: &[&[u8]],
    memory: usize,
    to: &mut Outputs,
) -> Result<(), NotCompacted> {
    let alloc = rt.alloc();
    let files = contents.to_vec(alloc)?;
    let folder = ScratchFolder::new(rt, ".");
    compact_pack(
        alloc,
        head,
        &mut JoinedFiles::new(alloc, files),
        folder,
        [folder; 4],
        memory,
        &mut to.pack,
        &mut to.output,
    )
}

/// A pack alone is copied, however little memory there is; and of a pack and a further file one is made that has the set's answers.
#[test]
fn compacts_files(rt: HostRuntime) -> Result<(), Fail> {
    let alloc = rt.alloc();
    let first = first_head(alloc)?;
    for memory in [0, 1_000_000] {
        let mut to = Outputs::new(&rt, NEVER);
        compact(&rt, &first, &[PACK], memory, &mut to)?;
        assert!(rt; to.pack.is_placed && to.pack.writer.taken.as_slice() == PACK);
        assert_eq!(rt; to.output.writer.taken.as_slice(), ROOT_LINE.as_bytes());
    }
    let mut added: Writers = new_writers(alloc);
    add(alloc, CHANGES, &first, b"town.pack.1", PACK, &mut added)?;
    let head = read_head(alloc, added.head.writer.taken.as_slice())?;
    let further = added.further.writer.taken.as_slice();
    let mut to = Outputs::new(&rt, NEVER);
    compact(&rt, &head, &[PACK, further], 100, &mut to)?;
    assert_eq!(rt; to.output.writer.taken.as_slice(), NEW_ROOT_LINE);
    let mut answer = Vec::new(alloc);
    query(
        alloc,
        Form::Opl,
        &head.root,
        b"nwr;out ids;",
        NO_LIMITS,
        to.pack.writer.taken.as_slice(),
        &mut answer,
    )?;
    assert_eq!(rt; answer.as_slice(), b"n1\nn9\nw7\nw10\nr100\n".as_slice());
    Ok(())
}

/// What is refused before anything is written, and how the program ends.
#[test]
fn refuses_files(rt: HostRuntime) -> Result<(), Fail> {
    let alloc = rt.alloc();
    let first = first_head(alloc)?;
    let mut turned = PACK.to_vec(alloc)?;
    turned.as_mut_slice()[70] ^= 1;
    let other = NotCompacted::Files(CompactFault::Source(Refused::Other));
    for (contents, fault) in [
        (turned.as_slice(), other),
        (&PACK[..200], NotCompacted::Device),
        (b"".as_slice(), NotCompacted::Device),
    ] {
        let mut to = Outputs::new(&rt, NEVER);
        assert_eq!(rt; compact(&rt, &first, &[contents], 100, &mut to), Err(fault));
        assert!(rt; to.pack.writer.taken.is_empty() && !to.pack.is_placed);
        assert!(rt; to.output.writer.taken.is_empty());
    }
    for (fault, status, line) in [
        (other, Status::Refused, "other bytes than asked for"),
        (
            NotCompacted::from(CompactFault::Source(Refused::Absent)),
            Status::Refused,
            "no such node",
        ),
        (
            NotCompacted::from(CompactFault::NoManifest),
            Status::Refused,
            "no manifest",
        ),
        (
            NotCompacted::from(CompactFault::NoTree),
            Status::Refused,
            "no tree",
        ),
        (
            NotCompacted::from(CompactFault::Clash),
            Status::Refused,
            "I1",
        ),
        (
            NotCompacted::from(CompactFault::TooLong),
            Status::Failed,
            "the pack is too long",
        ),
        (
            NotCompacted::from(CompactFault::Source(Refused::Memory)),
            Status::Failed,
            "no memory",
        ),
        (
            NotCompacted::from(CompactFault::Memory),
            Status::Failed,
            "no memory",
        ),
        (
            NotCompacted::from(CompactFault::Source(Refused::Device)),
            Status::Failed,
            "device",
        ),
        (
            NotCompacted::from(CompactFault::Device),
            Status::Failed,
            "device",
        ),
        (
            NotCompacted::from(CompactFault::NotWritten),
            Status::Failed,
            "device",
        ),
    ] {
        let told = format!(in alloc; "{fault}")?;
        assert_eq!(rt; told.as_str(), line);
        assert_eq!(rt; fault.status(), status);
    }
    Ok(())
}

/// The writer of the pack stops, or what it has can't be put in its place: the root isn't told then.
#[test]
fn each_writer_stops(rt: HostRuntime) -> Result<(), Fail> {
    let first = first_head(rt.alloc())?;
    for (at, stop, fails) in [
        (1, Stop::Fails, false),
        (50, Stop::TakesNothing, false),
        (0, Stop::HoldsBack, false),
        (0, Stop::Fails, true),
    ] {
        let mut to = Outputs::new(&rt, Stops { at, stop, fails });
        assert_eq!(rt;
            compact(&rt, &first, &[PACK], 100, &mut to),
            Err(NotCompacted::Device)
        );
        assert!(rt; !to.pack.is_placed && to.output.writer.taken.is_empty());
    }
    let mut to = Outputs::new(&rt, NEVER);
    let stops = Stops {
        at: 2,
        stop: Stop::Fails,
        fails: false,
    };
    to.output = writer(rt.alloc(), stops);
    assert_eq!(rt;
        compact(&rt, &first, &[PACK], 100, &mut to),
        Err(NotCompacted::Device)
    );
    assert!(rt; to.pack.is_placed && first.root == ROOT);
    Ok(())
}

/// Out of memory nothing is put in its place, and the same call may be made again.
#[test]
fn compacts_within_memory(rt: HostRuntime) -> Result<(), Fail> {
    let first = first_head(rt.alloc())?;
    let mut to = Outputs::new(&rt, NEVER);
    let mut told = compact(&rt, &first, &[PACK], 100, &mut to);
    if told == Err(NotCompacted::Memory) {
        assert!(rt; !to.pack.is_placed && to.output.writer.taken.is_empty());
        to = Outputs::new(&rt, NEVER);
        told = compact(&rt, &first, &[PACK], 100, &mut to);
    }
    // (the writers and the scratch files of the test take memory too)
    assert!(rt; told == Ok(()) || told == Err(NotCompacted::Device));
    Ok(())
}
