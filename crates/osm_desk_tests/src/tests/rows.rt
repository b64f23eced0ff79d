//! Requests that are cut by publications, and by other connections.

use super::{
    ALL_KINDS, ASKED, RESPONSE, WITHOUT_N1, desk_of, found, gives_nothing, hears, publishes,
    snapshot_of,
};
use osm_desk::{Desk, Event};
use osm_index::Snapshot;
use std::alloc::Global;
use std::process::Abort;
use std::test::Fail;

/// Where the request is cut: within its query.
const CUT: usize = 40;

/// What n1 is answered with after it was deleted.
pub(super) fn without_n1(alloc: Global) -> Result<String, Fail> {
    let built = snapshot_of(alloc, WITHOUT_N1, 1)?;
    found(alloc, &built, "")
}

/// Sends half a request for n1, deletes n1, and sends the other half.
fn check_cut(
    rt: &(impl Abort + AllocGlobal),
    desk: &mut Desk<Snapshot>,
    with_another: bool,
) -> Result<(), Fail> {
    let alloc = rt.alloc();
    let want = without_n1(alloc)?;
    let (first, second) = ASKED.split_at(CUT);
    assert!(rt; gives_nothing(desk, Event::Open(1)));
    assert!(rt; hears(alloc, desk, 1, first, b"")?);
    if with_another {
        assert!(rt; gives_nothing(desk, Event::Open(2)));
        assert!(rt; hears(alloc, desk, 2, ASKED, RESPONSE)?);
    }
    assert!(rt; publishes(alloc, desk, "n1 dD\n")?);
    assert!(rt; hears(alloc, desk, 1, second, want.as_bytes())?);
    Ok(())
}

/// It is over the snapshot that is in force when the request is complete.
#[test]
fn requests_are_over_the_last_publication(rt: HostRuntime) -> Result<(), Fail> {
    let mut desk = desk_of(rt.alloc(), ALL_KINDS)?;
    check_cut(&rt, &mut desk, false)
}

/// Another connection between changes nothing.
#[test]
fn other_connections_change_nothing(rt: HostRuntime) -> Result<(), Fail> {
    let mut desk = desk_of(rt.alloc(), ALL_KINDS)?;
    check_cut(&rt, &mut desk, true)
}

const BAD_HEAD: &[u8] = b"\
HTTP/1.1 400 Bad Request\r\n\
Content-Type: text/plain; charset=utf-8\r\n\
Content-Length: 9\r\n\
Connection: close\r\n\
\r\n\
bad head\n";

#[test]
fn half_a_request_is_forgotten(rt: HostRuntime) -> Result<(), Fail> {
    let alloc = rt.alloc();
    let mut desk = desk_of(alloc, ALL_KINDS)?;
    let (first, second) = ASKED.split_at("GET /api/interpreter?data=".len());
    assert!(rt; gives_nothing(&mut desk, Event::Open(1)));
    assert!(rt; hears(alloc, &mut desk, 1, first, b"")?);
    assert!(rt; gives_nothing(&mut desk, Event::End(1)));
    assert!(rt; gives_nothing(&mut desk, Event::Open(1)));
    assert!(rt; hears(alloc, &mut desk, 1, second, BAD_HEAD)?);
    // It is closed.
    assert!(rt; hears(alloc, &mut desk, 1, ASKED, b"")?);
    Ok(())
}
