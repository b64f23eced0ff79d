//! A vector as a sink.

use ql_eval::Sink;
use std::alloc::AllocError;
use std::test::Fail;

/// Writes two texts into a sink, and cuts what it has to 3 bytes. Gives its lengths.
fn write_and_cut<S: Sink>(sink: &mut S) -> Result<[u64; 3], AllocError> {
    sink.put(b"n1")?;
    sink.put(b"\nn2")?;
    let long = sink.len();
    sink.cut(3);
    let cut = sink.len();
    sink.cut(3);
    Ok([long, cut, sink.len()])
}

#[test]
fn a_vector_holds_the_text(rt: HostRuntime) -> Result<(), Fail> {
    let mut text = Vec::new(rt.alloc());
    assert_eq!(rt; write_and_cut(&mut text)?, [5, 3, 3]);
    assert_eq!(rt; text.as_slice(), "n1\n".as_bytes());
    Ok(())
}

/// Under refused allocations: all bytes are written, or none.
#[test]
fn memory_refused_leaves_the_text(rt: HostRuntime) -> Result<(), Fail> {
    let mut text = Vec::from_slice(rt.alloc(), b"n1\n")?;
    if text.put(b"n2 x13.4 y52.5\n").is_err() {
        assert_eq!(rt; text.as_slice(), "n1\n".as_bytes());
        text.put(b"n2 x13.4 y52.5\n")?;
    }
    assert_eq!(rt; text.as_slice(), "n1\nn2 x13.4 y52.5\n".as_bytes());
    Ok(())
}
