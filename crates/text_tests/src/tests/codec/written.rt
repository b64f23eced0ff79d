//! Lines that are written where memory is refused. Rows of lines are written by the program, in
//! tests/system/text_rows_test.py.

use opl_codec::{Change, OplFault, OutMode, append_reference, read_line, write_object};
use osm_model::{Kind, Object, Ref};
use std::alloc::{AllocError, Global};
use std::process::Abort;
use std::test::Fail;

/// A line, and what is written of its object without metadata and location.
const LINE: &[u8] = b"n1 x0 y0 Tname=Caf%e9%%20%au%20%lait,a=b";

const WRITTEN: &[u8] = b"n1 Ta=b,name=Caf%e9%%20%au%20%lait\n";

/// The object that the line puts.
fn object(alloc: Global) -> Result<Option<Object>, OplFault> {
    match read_line(alloc, LINE)? {
        Some(Change::Put(object)) => Ok(Some(object)),
        _ => Ok(None),
    }
}

/// The same; asked for once more where memory was refused.
fn object_at_last(alloc: Global) -> Result<Option<Object>, OplFault> {
    match object(alloc) {
        Ok(object) => Ok(object),
        Err(_) => object(alloc),
    }
}

/// Whether the object is written: all of its line, or nothing where memory is refused.
fn is_written(rt: &(impl Abort + AllocGlobal), object: &Object) -> bool {
    let mut out = Vec::new(rt.alloc());
    let written = write_object(object, OutMode::Tags, &mut out).is_ok();
    let wanted = if written { WRITTEN } else { &[] };
    assert!(rt; out.as_slice() == wanted, "{out:?}");
    written
}

// One allocation of this test may be refused.
#[test]
fn refused_memory_leaves_the_old_bytes(rt: HostRuntime) -> Result<(), Fail> {
    let object = object_at_last(rt.alloc())?.ok_or("an object was expected")?;
    let first = is_written(&rt, &object);
    let second = is_written(&rt, &object);
    assert!(rt; first || second);
    Ok(())
}

const REFERENCES: [(Kind, i64); 3] = [(Kind::Node, 1), (Kind::Way, -2), (Kind::Rel, i64::MAX)];

/// Under refused allocations: all references or out of memory, and with memory all of them.
fn references(alloc: Global) -> Result<Vec<u8>, AllocError> {
    let mut out = Vec::new(alloc);
    for (kind, id) in &REFERENCES {
        let reference = Ref {
            kind: *kind,
            id: *id,
        };
        append_reference(reference, &mut out)?;
    }
    Ok(out)
}

#[test]
fn references_have_letter_and_id_or_memory_is_refused(rt: HostRuntime) -> Result<(), AllocError> {
    let out = match references(rt.alloc()) {
        Ok(out) => out,
        Err(_) => references(rt.alloc())?,
    };
    assert!(rt;
        out.as_slice() == b"n1w-2r9223372036854775807".as_slice(),
        "{out:?}"
    );
    Ok(())
}
