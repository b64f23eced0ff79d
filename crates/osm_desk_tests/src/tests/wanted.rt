//! How many bytes of a connection are wanted, by hand.

use super::{ALL_KINDS, desk_of};
use osm_desk::Desk;
use osm_index::Snapshot;
use std::process::Abort;
use std::test::Fail;

/// Takes a piece, after which so many bytes are wanted.
fn wants(
    rt: &impl Abort,
    desk: &mut Desk<Snapshot>,
    piece: &[u8],
    wanted: usize,
) -> Result<(), Fail> {
    desk.hear(7, piece)?;
    assert_eq!(rt; desk.wanted(7), wanted);
    Ok(())
}

/// A head that is cut within line ends, and a body of 12 bytes.
#[test]
fn no_more_than_one_request_is_wanted(rt: HostRuntime) -> Result<(), Fail> {
    let mut desk = desk_of(rt.alloc(), ALL_KINDS)?;
    assert_eq!(rt; desk.wanted(7), 0);
    desk.open(7)?;
    assert_eq!(rt; desk.wanted(7), 0);
    let pieces = [
        (b"POST /api/interpreter HTTP/1.1".as_slice(), 0),
        (b"\r".as_slice(), 1),
        (b"\n".as_slice(), 1),
        (b"Content-Length: 12\r\n\r".as_slice(), 1),
        (b"\n".as_slice(), 12),
        (b"node(1);".as_slice(), 4),
        (b"out".as_slice(), 1),
        (b";".as_slice(), 0),
        // What comes before a request is passed over.
        (b"\r\n".as_slice(), 0),
    ];
    for (piece, wanted) in pieces {
        wants(&rt, &mut desk, piece, wanted)?;
    }
    Ok(())
}
