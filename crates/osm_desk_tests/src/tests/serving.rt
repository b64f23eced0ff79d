//! Connections of a desk over readers and writers that are slow, or fail.

use super::{ALL_KINDS, ASKED, RESPONSE, desk_of, gives_nothing, hears};
use osm_desk::{Desk, Event};
use osm_gate::GateFault;
use osm_index::Snapshot;
use std::alloc::Global;
use std::io::{Read, Write};
use std::process::Abort;
use std::test::Fail;
use test_devices::{NarrowWriter, SlowReader, Stop};

/// A request that ends the connection, and its response.
const LAST: &[u8] = b"GET /x HTTP/1.1\r\nConnection: close\r\n\r\n";

const LAST_RESPONSE: &[u8] = b"\
HTTP/1.1 404 Not Found\r\n\
Content-Type: text/plain; charset=utf-8\r\n\
Content-Length: 10\r\n\
Connection: close\r\n\
\r\n\
not found\n";

/// One text after the other.
pub(super) fn both(alloc: Global, first: &[u8], second: &[u8]) -> Result<Vec<u8>, Fail> {
    let mut text = first.to_vec(alloc)?;
    text.extend_from_slice(second)?;
    Ok(text)
}

/// Serves a connection, where the number is free and there is room.
pub(super) fn serve_on<R: Read, W: Write>(
    desk: &mut Desk<Snapshot>,
    number: u32,
    reader: &mut R,
    writer: &mut W,
) -> Result<Result<(), GateFault>, Fail> {
    if desk.is_open(number) || desk.is_full() {
        return Err(Fail::new("the number is free, and there is room"));
    }
    Ok(desk.serve_on(number, reader, writer))
}

/// A desk on which connection 1 has sent half a request.
fn with_half(rt: &(impl Abort + AllocGlobal)) -> Result<Desk<Snapshot>, Fail> {
    let mut desk = desk_of(rt.alloc(), ALL_KINDS)?;
    let (first, _) = ASKED.split_at(40);
    assert!(rt; gives_nothing(&mut desk, Event::Open(1)));
    assert!(rt; hears(rt.alloc(), &mut desk, 1, first, b"")?);
    Ok(desk)
}

/// Whether connection 2 is forgotten, and connection 1 goes on.
fn is_as_before(alloc: Global, desk: &mut Desk<Snapshot>) -> Result<bool, Fail> {
    let (_, second) = ASKED.split_at(40);
    Ok(!desk.is_open(2) && hears(alloc, desk, 1, second, RESPONSE)?)
}

/// Serves two requests from a reader that fails at a call, and has written the responses to what was read before.
fn check_reader(
    rt: &(impl Abort + AllocGlobal),
    fails_at: usize,
    at_once: usize,
    want: (Result<(), GateFault>, &[u8]),
) -> Result<(), Fail> {
    let mut desk = with_half(rt)?;
    let input = both(rt.alloc(), ASKED, LAST)?;
    let mut reader = SlowReader {
        left: &input,
        at_once,
        fails_at,
        calls: 0,
    };
    let mut written = Vec::new(rt.alloc());
    let outcome = serve_on(&mut desk, 2, &mut reader, &mut written)?;
    assert_eq!(rt; outcome, want.0, "{fails_at}");
    assert_eq!(rt; written.as_slice(), want.1, "{fails_at}");
    assert!(rt; is_as_before(rt.alloc(), &mut desk)?);
    Ok(())
}

#[test]
fn readers_fail(rt: HostRuntime) -> Result<(), Fail> {
    let whole = both(rt.alloc(), RESPONSE, LAST_RESPONSE)?;
    check_reader(&rt, 0, 1, (Ok(()), &whole))?;
    check_reader(&rt, 0, 8192, (Ok(()), &whole))?;
    check_reader(&rt, 1, ASKED.len(), (Err(GateFault::Reader), b""))?;
    check_reader(&rt, 2, ASKED.len(), (Err(GateFault::Reader), RESPONSE))
}

/// Serves a request into a writer that stops at a call.
fn check_writer(
    rt: &(impl Abort + AllocGlobal),
    stops_at: usize,
    stop: Stop,
    want: &[u8],
) -> Result<(), Fail> {
    let mut desk = with_half(rt)?;
    let mut reader = SlowReader {
        left: ASKED,
        at_once: 8192,
        fails_at: 0,
        calls: 0,
    };
    let mut writer = NarrowWriter {
        taken: Vec::new(rt.alloc()),
        at_once: 100,
        stops_at,
        stop,
        calls: 0,
    };
    let outcome = serve_on(&mut desk, 2, &mut reader, &mut writer)?;
    assert_eq!(rt; outcome, Err(GateFault::Writer), "{stops_at}");
    assert_eq!(rt; writer.taken.as_slice(), want, "{stops_at}");
    assert!(rt; is_as_before(rt.alloc(), &mut desk)?);
    Ok(())
}

#[test]
fn writers_fail(rt: HostRuntime) -> Result<(), Fail> {
    let (first, _) = RESPONSE.split_at(100);
    for stop in [Stop::Fails, Stop::TakesNothing] {
        check_writer(&rt, 1, stop, b"")?;
        check_writer(&rt, 2, stop, first)?;
    }
    Ok(())
}
