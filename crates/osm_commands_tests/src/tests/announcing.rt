//! `changes`: change files that get the line of the root that they give.

use super::ALL_KINDS;
use super::changing::{DELETE_WAY, WITHOUT_WAY};
use super::flushing_narrow_writer::FlushingNarrowWriter;
use command_devices::PlacingWriter;
use osm_changes::changes;
use osm_commands::{CommandFault, read_snapshot};
use osm_index::{Edition, Unwatched};
use std::alloc::Global;
use std::process::Abort;
use std::test::Fail;
use test_devices::{NarrowWriter, SlowReader, Stop};

/// The digits of the root of a set at a sequence, built from nothing.
pub(super) fn digits_of(alloc: Global, set: &str, sequence: u64) -> Result<String, Fail> {
    let snapshot = read_snapshot(
        alloc,
        &mut set.as_bytes(),
        Edition::Two { sequence },
        &mut Unwatched,
    )?;
    Ok(hex::encode(alloc, snapshot.root().0)?)
}

/// What `changes` writes: the change file and the root's line.
#[derive(Drop)]
struct Written {
    file: Vec<u8>,
    line: Vec<u8>,
}

/// Makes the change file anew that changes the set of all kinds at sequence 0.
fn announce(alloc: Global, file: &str, out: &mut Written) -> Result<(), CommandFault> {
    changes(
        alloc,
        &mut ALL_KINDS.as_bytes(),
        0,
        &mut file.as_bytes(),
        &mut Unwatched,
        &mut out.file,
        &mut out.line,
    )
}

/// Whether this file becomes this text and the root line, and the root is told.
fn becomes(alloc: Global, file: &str, text: &str, root: &str) -> Result<bool, Fail> {
    let mut out = Written {
        file: Vec::new(alloc),
        line: Vec::new(alloc),
    };
    announce(alloc, file, &mut out)?;
    let want = format!(in alloc; "{text}# root {root}\n")?;
    let line = format!(in alloc; "{root}\n")?;
    Ok(out.file.as_slice() == want.as_bytes() && out.line.as_slice() == line.as_bytes())
}

/// Files that delete the way, and what stands before the root line then.
const DELETING: [(&str, &str); 8] = [
    (DELETE_WAY, DELETE_WAY),
    ("w10 v2 dD", DELETE_WAY),
    ("w10 v2 dD\n# root\n", "w10 v2 dD\n# root\n"),
    ("w10 v2 dD\n# root 0", DELETE_WAY),
    ("w10 v2 dD\n# root 0\n\n\n", DELETE_WAY),
    ("w10 v2 dD\n\n# root \n", "w10 v2 dD\n\n"),
    ("# root 0\nw10 v2 dD\n\n", "# root 0\nw10 v2 dD\n\n"),
    ("w10 v2 dD\n# root 0\n# root 1\n", "w10 v2 dD\n# root 0\n"),
];

/// Files that change nothing.
const QUIET: [(&str, &str); 3] = [("", ""), ("\n\n", "\n\n"), ("# root 0", "")];

#[test]
fn change_files_get_their_root_lines(rt: HostRuntime) -> Result<(), Fail> {
    let alloc = rt.alloc();
    let deleted = digits_of(alloc, WITHOUT_WAY, 1)?;
    for (file, text) in DELETING {
        assert!(rt; becomes(alloc, file, text, &deleted)?, "{file}");
    }
    let same = digits_of(alloc, ALL_KINDS, 1)?;
    for (file, text) in QUIET {
        assert!(rt; becomes(alloc, file, text, &same)?, "{file}");
    }
    Ok(())
}

/// What was made is made again, byte for byte.
#[test]
fn a_root_line_is_replaced_by_the_same(rt: HostRuntime) -> Result<(), Fail> {
    let alloc = rt.alloc();
    let root = digits_of(alloc, WITHOUT_WAY, 1)?;
    let file = format!(in alloc; "{DELETE_WAY}# root {root}\n")?;
    assert!(rt; becomes(alloc, &file, DELETE_WAY, &root)?);
    Ok(())
}

/// Files that are refused, with the lines that tell it.
const REFUSED: [(&str, &str); 4] = [
    ("w11 v2 dD\n# root 0\n", "I2 w11"),
    ("n5 x0 y0\nn5 dD\n", "I3 n5"),
    ("n3 x1 y1\nn1 x13.4\n", "O9 line 2 byte 8"),
    ("# root 0\nz\n", "O1 line 2 byte 0"),
];

/// Whether this file is refused in this line, and nothing is written.
fn is_refused(alloc: Global, file: &str, told: &str) -> Result<bool, Fail> {
    let mut out = Written {
        file: Vec::new(alloc),
        line: Vec::new(alloc),
    };
    match announce(alloc, file, &mut out) {
        Ok(()) => Ok(false),
        Err(fault) => {
            let line = format!(in alloc; "{fault}")?;
            Ok(line.as_str() == told && out.file.is_empty() && out.line.is_empty())
        }
    }
}

#[test]
fn what_is_refused_writes_nothing(rt: HostRuntime) -> Result<(), Fail> {
    for (file, told) in REFUSED {
        assert!(rt; is_refused(rt.alloc(), file, told)?, "{file}");
    }
    Ok(())
}

/// Makes the change file anew that deletes the way, on these devices.
fn announce_on(
    alloc: Global,
    set_fails_at: usize,
    changes_fail_at: usize,
    file: &mut PlacingWriter,
    output: &mut FlushingNarrowWriter,
) -> Result<(), CommandFault> {
    let mut set = SlowReader {
        left: ALL_KINDS.as_bytes(),
        at_once: 64,
        fails_at: set_fails_at,
        calls: 0,
    };
    let mut change_file = SlowReader {
        left: DELETE_WAY.as_bytes(),
        at_once: 4,
        fails_at: changes_fail_at,
        calls: 0,
    };
    changes(
        alloc,
        &mut set,
        0,
        &mut change_file,
        &mut Unwatched,
        file,
        output,
    )
}

/// An output that stops so at this call.
fn output_of(alloc: Global, stops_at: usize, stop: Stop) -> FlushingNarrowWriter {
    FlushingNarrowWriter {
        writer: NarrowWriter {
            taken: Vec::new(alloc),
            at_once: 16,
            stops_at,
            stop,
            calls: 0,
        },
    }
}

/// Whether a device is told to have failed, no root is told, and the change file isn't in its place.
fn fails_unplaced(
    alloc: Global,
    set_fails_at: usize,
    changes_fail_at: usize,
    mut file: PlacingWriter,
) -> bool {
    let mut output = output_of(alloc, 0, Stop::Fails);
    let outcome = announce_on(alloc, set_fails_at, changes_fail_at, &mut file, &mut output);
    outcome == Err(CommandFault::Device) && output.writer.taken.is_empty() && !file.is_placed
}

/// Each call of each device fails in turn.
#[test]
fn devices_that_fail_leave_the_file_in_its_place(rt: HostRuntime) {
    let alloc = rt.alloc();
    for call in 1..4 {
        let file = PlacingWriter::new(alloc, 0, Stop::Fails, false);
        assert!(rt; fails_unplaced(alloc, call, 0, file));
        let file = PlacingWriter::new(alloc, 0, Stop::Fails, false);
        assert!(rt; fails_unplaced(alloc, 0, call, file));
    }
    // The text has 82 bytes.
    for call in 1..10 {
        let file = PlacingWriter::new(alloc, call, Stop::Fails, false);
        assert!(rt; fails_unplaced(alloc, 0, 0, file));
        let file = PlacingWriter::new(alloc, call, Stop::TakesNothing, false);
        assert!(rt; fails_unplaced(alloc, 0, 0, file));
    }
    let file = PlacingWriter::new(alloc, 0, Stop::HoldsBack, false);
    assert!(rt; fails_unplaced(alloc, 0, 0, file));
    let file = PlacingWriter::new(alloc, 0, Stop::Fails, true);
    assert!(rt; fails_unplaced(alloc, 0, 0, file));
}

/// The output fails last: the change file is in its place then.
#[test]
fn an_output_that_fails_comes_last(rt: HostRuntime) {
    let alloc = rt.alloc();
    for (call, stop) in [
        (1, Stop::Fails),
        (5, Stop::TakesNothing),
        (0, Stop::HoldsBack),
    ] {
        let mut file = PlacingWriter::new(alloc, 0, Stop::Fails, false);
        let mut output = output_of(alloc, call, stop);
        let outcome = announce_on(alloc, 0, 0, &mut file, &mut output);
        assert!(rt; outcome == Err(CommandFault::Device) && file.is_placed);
    }
}

/// Whether the change file is made anew; else it is out of memory. The writers are vectors, so when one is out of memory
/// that is a device's fault.
fn is_announced(rt: &impl Abort, alloc: Global, root: &str) -> Result<bool, Fail> {
    let mut out = Written {
        file: Vec::new(alloc),
        line: Vec::new(alloc),
    };
    match announce(alloc, DELETE_WAY, &mut out) {
        Ok(()) => {
            let want = format!(in alloc; "{DELETE_WAY}# root {root}\n")?;
            assert!(rt; out.file.as_slice() == want.as_bytes());
            Ok(true)
        }
        Err(fault) => {
            assert!(rt;
                matches!(fault, CommandFault::Memory | CommandFault::Device),
                "{fault}"
            );
            assert!(rt; out.line.is_empty());
            Ok(false)
        }
    }
}

#[test]
fn announces_within_memory(rt: HostRuntime) -> Result<(), Fail> {
    let alloc = rt.alloc();
    let root = digits_of(alloc, WITHOUT_WAY, 1)?;
    assert!(rt; is_announced(&rt, alloc, &root)? || is_announced(&rt, alloc, &root)?);
    Ok(())
}
