//! The command `pack` in bounded memory.

use super::four_objects::{OBJECTS, PACK, ROOT_LINE};
use command_devices::PlacingWriter;
use opl_codec::{LoadFault, OplCause, OplFault};
use osm_commands::CommandFault;
use osm_index::{Edition, Unwatched};
use osm_packs::pack_within;
use scratch_files::ScratchFolder;
use std::io::{Cursor, Read};
use std::test::Fail;
use test_devices::Stop;

const EDITION: Edition = Edition::Two { sequence: 7 };

/// What a reader holds, packed into a file within so many bytes.
fn packed<R: Read>(
    rt: &HostRuntime,
    reader: &mut R,
    memory: usize,
    file: &mut PlacingWriter,
    output: &mut PlacingWriter,
) -> Result<(), CommandFault> {
    let folder = ScratchFolder::new(rt, ".");
    pack_within(
        rt.alloc(),
        reader,
        EDITION,
        &mut Unwatched,
        folder,
        [folder; 4],
        memory,
        file,
        output,
    )
}

/// The pack is the one that tests/system/packs.py makes, whatever is held in memory. Out of memory nothing is written; a file
/// that can't grow, and a scratch file without memory, is a device that fails.
#[test]
fn packs_the_same_within_any_memory(rt: HostRuntime) -> Result<(), Fail> {
    for memory in [0, 100, 1_000_000] {
        let mut file = PlacingWriter::new(rt.alloc(), 0, Stop::Fails, false);
        let mut output = PlacingWriter::new(rt.alloc(), 0, Stop::Fails, false);
        let mut reader = Cursor::new(OBJECTS.as_bytes());
        match packed(&rt, &mut reader, memory, &mut file, &mut output) {
            Ok(()) => {
                assert!(rt; file.writer.taken.as_slice() == PACK && file.is_placed);
                assert!(rt; output.writer.taken.as_slice() == ROOT_LINE.as_bytes());
            }
            Err(CommandFault::Memory) => {
                assert!(rt; file.writer.taken.is_empty() && output.writer.taken.is_empty());
            }
            Err(fault) => {
                assert_eq!(rt; fault, CommandFault::Device);
                assert!(rt; PACK.starts_with(file.writer.taken.as_slice()));
                assert!(rt; file.is_placed || output.writer.taken.is_empty());
            }
        }
    }
    Ok(())
}

/// What holds no set isn't packed, nor is anything where the scratch files have no folder.
#[test]
fn packs_nothing_where_it_is_refused(rt: HostRuntime) -> Result<(), Fail> {
    let mut file = PlacingWriter::new(rt.alloc(), 0, Stop::Fails, false);
    let mut output = PlacingWriter::new(rt.alloc(), 0, Stop::Fails, false);
    let told = packed(
        &rt,
        &mut Cursor::new(b"n1 x1 y1\nn2 x".as_slice()),
        0,
        &mut file,
        &mut output,
    );
    let fault = CommandFault::Opl(LoadFault {
        line: 2,
        fault: OplFault {
            cause: OplCause::NoLocation,
            byte: 4,
        },
    });
    assert_eq!(rt; told, Err(fault));
    let nowhere = ScratchFolder::new(&rt, "./nowhere");
    let told = pack_within(
        rt.alloc(),
        &mut Cursor::new(OBJECTS.as_bytes()),
        EDITION,
        &mut Unwatched,
        nowhere,
        [nowhere; 4],
        0,
        &mut file,
        &mut output,
    );
    assert_eq!(rt; told, Err(CommandFault::Device));
    assert!(rt; file.writer.taken.is_empty() && !file.is_placed);
    assert!(rt; output.writer.taken.is_empty());
    Ok(())
}

/// Each write of the pack fails in turn, then its flush, then putting it in its place: a beginning of the pack is written, which
/// isn't in its place, and the root isn't told. Where the output of the root fails, the pack is in its place.
#[test]
fn the_root_comes_after_the_pack(rt: HostRuntime) -> Result<(), Fail> {
    let mut calls: usize = 0;
    for stops_at in 1..2_000 {
        let mut file = PlacingWriter::new(rt.alloc(), stops_at, Stop::Fails, false);
        let mut output = PlacingWriter::new(rt.alloc(), 0, Stop::Fails, false);
        let mut reader = Cursor::new(OBJECTS.as_bytes());
        let told = packed(&rt, &mut reader, 1_000, &mut file, &mut output);
        if told.is_ok() {
            break;
        }
        assert_eq!(rt; told, Err(CommandFault::Device));
        assert!(rt; PACK.starts_with(file.writer.taken.as_slice()));
        assert!(rt; !file.is_placed && output.writer.taken.is_empty());
        calls = calls.saturating_add(1);
    }
    assert!(rt; calls > PACK.len() / 10);
    for (stop, fails) in [(Stop::HoldsBack, false), (Stop::Fails, true)] {
        let mut file = PlacingWriter::new(rt.alloc(), 0, stop, fails);
        let mut output = PlacingWriter::new(rt.alloc(), 0, Stop::Fails, false);
        let mut reader = Cursor::new(OBJECTS.as_bytes());
        let told = packed(&rt, &mut reader, 1_000, &mut file, &mut output);
        assert_eq!(rt; told, Err(CommandFault::Device));
        assert!(rt; file.writer.taken.as_slice() == PACK);
        assert!(rt; !file.is_placed && output.writer.taken.is_empty());
    }
    let mut file = PlacingWriter::new(rt.alloc(), 0, Stop::Fails, false);
    let mut output = PlacingWriter::new(rt.alloc(), 3, Stop::Fails, false);
    let mut reader = Cursor::new(OBJECTS.as_bytes());
    let told = packed(&rt, &mut reader, 1_000, &mut file, &mut output);
    assert_eq!(rt; told, Err(CommandFault::Device));
    assert!(rt; file.is_placed && file.writer.taken.as_slice() == PACK);
    assert!(rt; output.writer.taken.as_slice() == &ROOT_LINE.as_bytes()[..20]);
    Ok(())
}
