//! The command `pack`.

use super::four_objects::{OBJECTS, PACK, ROOT_LINE};
use command_devices::PlacingWriter;
use opl_codec::{LoadFault, OplCause, OplFault};
use osm_commands::{CommandFault, Status};
use osm_index::{Edition, Unwatched};
use osm_packs::pack;
use std::io::Cursor;
use std::test::Fail;
use test_devices::Stop;

const EDITION: Edition = Edition::Two { sequence: 7 };

/// The pack is the one that tests/system/packs.py makes. Out of memory nothing is written, and the same call may be made again.
#[test]
fn packs_within_memory(rt: HostRuntime) -> Result<(), Fail> {
    let alloc = rt.alloc();
    let mut file = Vec::new(alloc);
    let mut output = Vec::new(alloc);
    let first = pack(
        alloc,
        &mut Cursor::new(OBJECTS.as_bytes()),
        EDITION,
        &mut Unwatched,
        &mut file,
        &mut output,
    );
    match first {
        Err(CommandFault::Memory) => {
            assert!(rt; file.is_empty() && output.is_empty());
            pack(
                alloc,
                &mut Cursor::new(OBJECTS.as_bytes()),
                EDITION,
                &mut Unwatched,
                &mut file,
                &mut output,
            )?;
        }
        // A vector that can't grow is a writer that fails: it has a beginning of its text.
        Err(CommandFault::Device) => {
            assert!(rt; PACK.starts_with(file.as_slice()));
            return Ok(());
        }
        other => other?,
    }
    assert!(rt; file.as_slice() == PACK);
    assert_eq!(rt; output.as_slice(), ROOT_LINE.as_bytes());
    Ok(())
}

/// What holds no set isn't packed.
#[test]
fn refuses_what_holds_no_set(rt: HostRuntime) -> Result<(), Fail> {
    let alloc = rt.alloc();
    let mut file = Vec::new(alloc);
    let mut output = Vec::new(alloc);
    let told = pack(
        alloc,
        &mut Cursor::new(b"n1 x1 y1\nn2 x".as_slice()),
        EDITION,
        &mut Unwatched,
        &mut file,
        &mut output,
    );
    let fault = CommandFault::Opl(LoadFault {
        line: 2,
        fault: OplFault {
            cause: OplCause::NoLocation,
            byte: 4,
        },
    });
    assert_eq!(rt; told, Err(fault));
    assert!(rt; file.is_empty() && output.is_empty());
    Ok(())
}

/// Each write of the pack fails or takes nothing in turn, then its flush, then putting it in its place: a beginning of the pack is
/// written, which isn't in its place, and the root isn't told.
#[test]
fn each_write_fails(rt: HostRuntime) -> Result<(), Fail> {
    let alloc = rt.alloc();
    let mut calls: usize = 0;
    for (stop, first, last) in [(Stop::Fails, 1, 200), (Stop::TakesNothing, 1, 200)] {
        for stops_at in first..last {
            let mut file = PlacingWriter::new(alloc, stops_at, stop, false);
            let mut output = Vec::new(alloc);
            let told = pack(
                alloc,
                &mut Cursor::new(OBJECTS.as_bytes()),
                EDITION,
                &mut Unwatched,
                &mut file,
                &mut output,
            );
            if told.is_ok() {
                break;
            }
            assert_eq!(rt; told, Err(CommandFault::Device));
            assert!(rt; PACK.starts_with(file.writer.taken.as_slice()));
            assert!(rt; !file.is_placed && output.is_empty());
            calls = calls.saturating_add(1);
        }
    }
    // A call for each ten bytes at least.
    assert!(rt; calls > PACK.len() / 5);
    for (stop, fails) in [(Stop::HoldsBack, false), (Stop::Fails, true)] {
        let mut file = PlacingWriter::new(alloc, 0, stop, fails);
        let mut output = Vec::new(alloc);
        let told = pack(
            alloc,
            &mut Cursor::new(OBJECTS.as_bytes()),
            EDITION,
            &mut Unwatched,
            &mut file,
            &mut output,
        );
        assert_eq!(rt; told, Err(CommandFault::Device));
        assert!(rt; file.writer.taken.as_slice() == PACK);
        assert!(rt; !file.is_placed && output.is_empty());
    }
    assert_eq!(rt; CommandFault::Device.status(), Status::Failed);
    Ok(())
}

/// Where the output of the root fails, the pack is in its place.
#[test]
fn the_root_is_told_last(rt: HostRuntime) -> Result<(), Fail> {
    let alloc = rt.alloc();
    let mut file = PlacingWriter::new(alloc, 0, Stop::Fails, false);
    let mut output = PlacingWriter::new(alloc, 3, Stop::Fails, false);
    let told = pack(
        alloc,
        &mut Cursor::new(OBJECTS.as_bytes()),
        EDITION,
        &mut Unwatched,
        &mut file,
        &mut output,
    );
    assert_eq!(rt; told, Err(CommandFault::Device));
    assert!(rt; file.is_placed && file.writer.taken.as_slice() == PACK);
    assert!(rt; output.writer.taken.as_slice() == &ROOT_LINE.as_bytes()[..20]);
    Ok(())
}
