//! Files as sets and as lines: pieces of any size, failing readers, refused memory. Rows of files are read by the
//! program, in tests/system/text_rows_test.py.

use byte_io::{PieceReader, split_once};
use opl_codec::{Change, LineReader, LoadFault, OplCause, OplFault, read_set};
use osm_model::{Kind, ObjectSet, Ref};
use std::alloc::Global;
use std::io::Read;
use std::process::Abort;
use test_devices::SlowReader;

/// The file, so many bytes a call.
fn slow(file: &str, at_once: usize) -> SlowReader<'_> {
    SlowReader {
        left: file.as_bytes(),
        at_once,
        fails_at: 0,
        calls: 0,
    }
}

fn fault(line: u64, cause: OplCause, byte: usize) -> Option<LoadFault> {
    Some(LoadFault {
        line,
        fault: OplFault { cause, byte },
    })
}

/// Whether the set has a node with this id.
fn has_node(set: &ObjectSet, id: i64) -> bool {
    let kind = Kind::Node;
    set.get(Ref { kind, id }).is_some()
}

/// Whether the file holds just the nodes 1, 2 and 3.
fn holds_three(alloc: Global, file: &str, at_once: usize) -> Result<bool, LoadFault> {
    let set = read_set(alloc, &mut slow(file, at_once))?;
    Ok(set.as_slice().len() == 3 && has_node(&set, 1) && has_node(&set, 2) && has_node(&set, 3))
}

/// Files of the same set, and how many bytes a call gives.
const ORDERS: [(&str, usize); 3] = [
    ("n3 x3 y3\nn1 x1 y1\n\nn2 x2 y2", 4096),
    ("\n\nn2 x2 y2\nn3 x3 y3\nn1 x1 y1\n\n", 1),
    ("n2 x2 y2\nn3 x3 y3\nn1 x1 y1", 7),
];

#[test]
fn lines_may_stand_in_any_order(rt: HostRuntime) -> Result<(), LoadFault> {
    for (file, at_once) in &ORDERS {
        assert!(rt; holds_three(rt.alloc(), file, *at_once)?, "at {file:?}");
    }
    Ok(())
}

/// The id of the object that the next line puts, and the line's number; `None` at the end.
fn next_id<R: Read>(reader: &mut LineReader<R>) -> Result<Option<(u64, i64)>, LoadFault> {
    match reader.next_change()? {
        Some((line, Change::Put(object))) => Ok(Some((line, object.id()))),
        Some((line, Change::Delete(name))) => Ok(Some((line, name.id))),
        None => Ok(None),
    }
}

/// Two lines, a byte a call, of which one fails.
fn failing(fails_at: usize) -> SlowReader<'static> {
    SlowReader {
        left: b"n1 x1 y1\nn2 x2 y2\n",
        at_once: 1,
        fails_at,
        calls: 0,
    }
}

/// The fault at which a reader of two lines stops.
fn stop_of<R: Read>(reader: &mut LineReader<R>) -> Option<LoadFault> {
    for _ in 0..3 {
        if let Err(told) = next_id(reader) {
            return Some(told);
        }
    }
    None
}

#[test]
fn a_failing_reader_names_the_line(rt: HostRuntime) {
    let alloc = rt.alloc();
    for fails_at in 1..20 {
        let line = match fails_at {
            1..=9 => 1,
            10..=18 => 2,
            _ => 3,
        };
        let wanted = fault(line, OplCause::ReaderFailed, 0);
        let told = read_set(alloc, &mut failing(fails_at)).err();
        assert!(rt; told == wanted, "{told:?}");
        let mut lines = LineReader::new(alloc, failing(fails_at));
        let told = stop_of(&mut lines);
        assert!(rt; told == wanted, "{told:?}");
        assert!(rt; lines.into_reader().left.len() == 19 - fails_at);
    }
}

#[test]
fn memory_changes_no_set(rt: HostRuntime) -> Result<(), LoadFault> {
    let file = "n3 Ta=1 x3 y3\nn1 x1 y1\nn2 x2 y2\n";
    match holds_three(rt.alloc(), file, 5) {
        Ok(holds) => assert!(rt; holds),
        Err(told) => assert!(rt; Some(told) == fault(0, OplCause::Memory, 0)),
    }
    assert!(rt; holds_three(rt.alloc(), file, 5)?);
    Ok(())
}

/// What a reader of two lines tells: both, and the end, or out of memory, which is told again.
fn two_lines(rt: &impl Abort, alloc: Global) -> Result<(), LoadFault> {
    let mut reader = LineReader::new(alloc, slow("n1 Ta=1 x1 y1\n\nw2 Nn1,n2", 7));
    for wanted in [Some((1, 1)), Some((3, 2)), None] {
        match next_id(&mut reader) {
            Ok(told) => assert!(rt; told == wanted, "{told:?}"),
            Err(told) => {
                assert!(rt; Some(told) == fault(0, OplCause::Memory, 0), "{told:?}");
                assert!(rt; next_id(&mut reader) == Err(told));
                return Err(told);
            }
        }
    }
    Ok(())
}

#[test]
fn memory_changes_no_line(rt: HostRuntime) -> Result<(), LoadFault> {
    let alloc = rt.alloc();
    let _ = two_lines(&rt, alloc);
    two_lines(&rt, alloc)
}

/// Both lines before a fault come, and then the fault whenever the reader is asked.
#[test]
fn a_fault_is_told_again(rt: HostRuntime) -> Result<(), LoadFault> {
    let file = "n1 x1 y1\nw2 Nn1,n2\nn3 x3\nn4 x4 y4\n";
    let mut reader = LineReader::new(rt.alloc(), slow(file, 7));
    for wanted in [Some((1, 1)), Some((2, 2))] {
        let told = next_id(&mut reader)?;
        assert!(rt; told == wanted, "{told:?}");
    }
    let wanted = fault(3, OplCause::NoLocation, 5);
    for _ in 0..2 {
        let told = next_id(&mut reader).err();
        assert!(rt; told == wanted, "{told:?}");
    }
    Ok(())
}

#[test]
fn pieces_end_where_the_reader_does(rt: HostRuntime) {
    let mut reader = b"ab\nc".as_slice();
    let mut pieces = PieceReader::new();
    assert!(rt; pieces.read_next(&mut reader) == Ok(true));
    assert!(rt; split_once(pieces.last(), b'\n') == Some((b"ab".as_slice(), b"c".as_slice())));
    assert!(rt; pieces.read_next(&mut reader) == Ok(false));
}
