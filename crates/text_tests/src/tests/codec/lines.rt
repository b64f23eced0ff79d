//! Lines that delete an object, the text of a line's fault, and lines where memory is refused. Rows of lines are read by the program, in
//! tests/system/text_rows_test.py.

use opl_codec::{Change, OplCause, OplFault, read_line};
use osm_model::{Kind, Ref};
use std::alloc::{AllocError, Global};
use std::test::Fail;

/// Lines that delete an object, and which.
const DELETED: [(&str, Kind, i64); 3] = [
    ("w10 v2 dD", Kind::Way, 10),
    ("n1 dD", Kind::Node, 1),
    ("r-2 Mn1@stop dD v1", Kind::Rel, -2),
];

/// The object that the line deletes.
fn deleted(alloc: Global, line: &str) -> Result<Option<Ref>, OplFault> {
    match read_line(alloc, line.as_bytes())? {
        Some(Change::Delete(name)) => Ok(Some(name)),
        _ => Ok(None),
    }
}

#[test]
fn deleted_objects_are_named(rt: HostRuntime) -> Result<(), OplFault> {
    for (line, kind, id) in &DELETED {
        let name = Ref {
            kind: *kind,
            id: *id,
        };
        assert!(rt; deleted(rt.alloc(), line)? == Some(name), "at {line}");
    }
    Ok(())
}

/// The text of a fault of a line that stands alone, which no command prints.
#[test]
fn faults_have_their_texts(rt: HostRuntime) -> Result<(), AllocError> {
    let fault = OplFault {
        cause: OplCause::BadValue,
        byte: 8,
    };
    assert_eq!(rt; fault.to_string(rt.alloc())?.as_str(), "O6 byte 8");
    Ok(())
}

/// Whether the line is read, unless memory runs out.
fn is_read_within_memory(alloc: Global, line: &[u8]) -> bool {
    match read_line(alloc, line) {
        Ok(found) => found.is_some(),
        Err(fault) => fault.cause == OplCause::Memory && fault.byte == 0,
    }
}

#[test]
fn memory_is_refused_or_all_is_read(rt: HostRuntime) -> Result<(), Fail> {
    let line = b"r1 uAnn Tb=2,a=1 Mn1@stop,w2@";
    assert!(rt; is_read_within_memory(rt.alloc(), line));
    assert!(rt; read_line(rt.alloc(), line)?.is_some());
    Ok(())
}
