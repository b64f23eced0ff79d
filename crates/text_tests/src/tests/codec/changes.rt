//! Files as lists of changes: puts and deletes, in order, also of one object; and the comments that they end with. Files
//! that are refused are rows of
//! tests/system/changes_test.py.

use opl_codec::{
    Change, ChangeFile, LoadFault, OplCause, OplFault, read_change_file, read_changes,
};
use osm_model::{Kind, Ref};
use std::alloc::Global;
use test_devices::SlowReader;

const FILE: &str = "n1 x1 y1\n# a comment\nw10 v2 dD\n\nn1 v2 x2 y2\r\nr-2 dD\nn1 dD";

/// What the lines of the file change, and whether they put it.
const WANTED: [(Kind, i64, bool); 5] = [
    (Kind::Node, 1, true),
    (Kind::Way, 10, false),
    (Kind::Node, 1, true),
    (Kind::Rel, -2, false),
    (Kind::Node, 1, false),
];

/// The file, so many bytes a call, of which one fails (0: none).
fn slow(at_once: usize, fails_at: usize) -> SlowReader<'static> {
    SlowReader {
        left: FILE.as_bytes(),
        at_once,
        fails_at,
        calls: 0,
    }
}

/// Whether these are the changes of the file.
fn are_wanted(changes: &[Change]) -> bool {
    changes.len() == WANTED.len()
        && changes.iter().zip(&WANTED).all(|(change, (kind, id, is_put))| {
            let name = Ref {
                kind: *kind,
                id: *id,
            };
            match change {
                Change::Put(object) => *is_put && object.reference() == name,
                Change::Delete(reference) => !*is_put && *reference == name,
            }
        })
}

fn fault(line: u64, cause: OplCause, byte: usize) -> LoadFault {
    LoadFault {
        line,
        fault: OplFault { cause, byte },
    }
}

#[test]
fn a_failing_reader_names_the_line(rt: HostRuntime) {
    // The third line begins at byte 21: the 22nd call, of one byte each, reads its first.
    let told = read_changes(rt.alloc(), &mut slow(1, 22)).err();
    assert!(rt; told == Some(fault(3, OplCause::ReaderFailed, 0)));
}

/// Whether the changes of the file are read, unless memory runs out.
fn are_read_within_memory(alloc: Global) -> bool {
    match read_changes(alloc, &mut slow(5, 0)) {
        Ok(changes) => are_wanted(&changes),
        Err(told) => told == fault(0, OplCause::Memory, 0),
    }
}

/// Run with each allocation refused in turn: all changes, or out of memory and then all changes.
#[test]
fn memory_changes_no_list(rt: HostRuntime) -> Result<(), LoadFault> {
    assert!(rt; are_read_within_memory(rt.alloc()));
    assert!(rt; are_wanted(&read_changes(rt.alloc(), &mut slow(1, 0))?));
    Ok(())
}

/// Files, and the comments that they end with.
const ENDS: [(&str, Option<&str>); 11] = [
    ("", None),
    ("\n", None),
    ("#", Some("#")),
    ("# a\n", Some("# a")),
    ("# a\n\n\n", Some("# a")),
    ("# a\r\n", Some("# a\r")),
    ("# first\nn1 dD\n# last", Some("# last")),
    ("# first\n# last\n", Some("# last")),
    ("# a\nn1 dD\n", None),
    ("# a\nn1 dD", None),
    ("# a\n \n", None),
];

/// What a file holds that is read so many bytes a call.
fn read_slowly(alloc: Global, file: &'static str, at_once: usize) -> Result<ChangeFile, LoadFault> {
    let mut reader = SlowReader {
        left: file.as_bytes(),
        at_once,
        fails_at: 0,
        calls: 0,
    };
    read_change_file(alloc, &mut reader)
}

/// Whether the file ends with this comment.
fn ends_with(file: &ChangeFile, comment: Option<&str>) -> bool {
    match (&file.end_comment, comment) {
        (Some(found), Some(wanted)) => found.as_slice() == wanted.as_bytes(),
        (None, None) => true,
        _ => false,
    }
}

#[test]
fn the_comment_at_the_end_is_told(rt: HostRuntime) -> Result<(), LoadFault> {
    for (file, comment) in ENDS {
        for at_once in [1, 4, 1000] {
            let read = read_slowly(rt.alloc(), file, at_once)?;
            assert!(rt; ends_with(&read, comment));
        }
    }
    Ok(())
}

/// A file of one change, which ends with a comment.
const ENDED: &str = "n1 dD\n# the end";

/// Run with each allocation refused in turn: all of the file, or out of memory and then all of it.
#[test]
fn memory_changes_no_comment(rt: HostRuntime) -> Result<(), LoadFault> {
    match read_slowly(rt.alloc(), ENDED, 5) {
        Ok(file) => assert!(rt; file.changes.len() == 1 && ends_with(&file, Some("# the end"))),
        Err(told) => assert!(rt; told == fault(0, OplCause::Memory, 0)),
    }
    let file = read_slowly(rt.alloc(), ENDED, 5)?;
    assert!(rt; file.changes.len() == 1 && ends_with(&file, Some("# the end")));
    Ok(())
}
