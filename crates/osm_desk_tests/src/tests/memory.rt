//! Memory that is refused. Run with each allocation refused in turn: the whole result, or out of memory and then the
//! whole result.

use super::rows::without_n1;
use super::serving::{both, serve_on};
use super::{ALL_KINDS, ASKED, RESPONSE, arrival, desk_of, gives_nothing, publication, step};
use osm_desk::{Desk, DeskFault, Event};
use osm_gate::GateFault;
use osm_index::Snapshot;
use std::process::Abort;
use std::test::Fail;
use test_devices::SlowReader;

const NO_MEMORY: &[u8] = b"\
HTTP/1.1 503 Service Unavailable\r\n\
Content-Type: text/plain; charset=utf-8\r\n\
Content-Length: 10\r\n\
Connection: close\r\n\
\r\n\
no memory\n";

/// Whether an event gives these answers; out of memory the desk is as before, and takes it again.
fn step_twice(
    rt: &impl Abort,
    desk: &mut Desk<Snapshot>,
    event: Event,
    again: Event,
) -> Result<Vec<(u32, Vec<u8>)>, DeskFault> {
    let root = *desk.snapshot().root();
    match step(desk, event) {
        Ok(answers) => Ok(answers),
        Err(fault) => {
            assert_eq!(rt; fault, DeskFault::Memory);
            assert!(rt; *desk.snapshot().root() == root);
            step(desk, again)
        }
    }
}

/// Takes an event that gives nothing, perhaps twice.
fn gives_nothing_twice(rt: &impl Abort, desk: &mut Desk<Snapshot>, event: Event, again: Event) {
    match step_twice(rt, desk, event, again) {
        Ok(answers) => assert!(rt; answers.is_empty()),
        Err(fault) => assert_eq!(rt; fault, DeskFault::Memory),
    }
}

/// Takes a piece, perhaps twice, and gets these bytes.
fn hears_twice(
    rt: &(impl Abort + AllocGlobal),
    desk: &mut Desk<Snapshot>,
    piece: &[u8],
    bytes: &[u8],
) -> Result<(), Fail> {
    let event = arrival(rt.alloc(), 1, piece)?;
    let again = arrival(rt.alloc(), 1, piece)?;
    let mut answers = step_twice(rt, desk, event, again)?;
    match answers.pop() {
        Some((_, responses)) => assert_eq!(rt; responses.as_slice(), bytes),
        None => assert!(rt; false),
    }
    Ok(())
}

/// Deletes n1, perhaps twice.
fn publishes_twice(rt: &(impl Abort + AllocGlobal), desk: &mut Desk<Snapshot>) -> Result<(), Fail> {
    let event = publication(rt.alloc(), "n1 dD\n")?;
    let again = publication(rt.alloc(), "n1 dD\n")?;
    gives_nothing_twice(rt, desk, event, again);
    Ok(())
}

#[test]
fn steps_within_memory(rt: HostRuntime) -> Result<(), Fail> {
    let want = without_n1(rt.alloc())?;
    let mut desk = desk_of(rt.alloc(), ALL_KINDS)?;
    gives_nothing_twice(&rt, &mut desk, Event::Open(1), Event::Open(1));
    let (first, second) = ASKED.split_at(40);
    hears_twice(&rt, &mut desk, first, b"")?;
    publishes_twice(&rt, &mut desk)?;
    hears_twice(&rt, &mut desk, second, want.as_bytes())?;
    // An end takes no memory.
    assert!(rt; gives_nothing(&mut desk, Event::End(1)));
    Ok(())
}

/// Serves two requests, a piece each: out of memory what was read before has its response, and then comes the fixed one.
fn serves(
    rt: &(impl Abort + AllocGlobal),
    desk: &mut Desk<Snapshot>,
    input: &[u8],
) -> Result<(), Fail> {
    let mut reader = SlowReader {
        left: input,
        at_once: ASKED.len(),
        fails_at: 0,
        calls: 0,
    };
    // Where there is room, writing takes no memory.
    let mut written = Vec::with_capacity(rt.alloc(), 1024)?;
    let outcome = serve_on(desk, 2, &mut reader, &mut written)?;
    let (first, second) = match outcome {
        Ok(()) => (RESPONSE, RESPONSE),
        Err(fault) => {
            assert_eq!(rt; fault, GateFault::Memory);
            (if reader.calls > 1 { RESPONSE } else { b"" }, NO_MEMORY)
        }
    };
    let (front, back) = written.as_slice().split_at(first.len().min(written.len()));
    assert_eq!(rt; front, first);
    assert_eq!(rt; back, second);
    assert!(rt; !desk.is_open(2));
    Ok(())
}

#[test]
fn serves_within_memory(rt: HostRuntime) -> Result<(), Fail> {
    let input = both(rt.alloc(), ASKED, ASKED)?;
    let mut desk = desk_of(rt.alloc(), ALL_KINDS)?;
    serves(&rt, &mut desk, &input)?;
    serves(&rt, &mut desk, &input)
}
