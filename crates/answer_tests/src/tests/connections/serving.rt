//! Connections over readers and writers that are slow, or fail.

use super::fed;
use crate::tests::snapshot_of;
use crate::tests::texts_of_sets::ALL_KINDS;
use osm_gate::{GateFault, serve};
use osm_index::{Edition, Snapshot};
use std::io;
use std::io::Read;
use std::process::Abort;
use std::test::Fail;
use test_devices::{NarrowWriter, SlowReader, Stop};

/// Two requests, of which the first has the response that an independent program made.
const FIRST: &str =
    "GET /api/interpreter?data=node%281%29%3Bout%20ids%3B HTTP/1.1\r\nHost: h\r\n\r\n";

const SECOND: &str = "GET /x HTTP/1.1\r\nConnection: close\r\n\r\n";

const FIRST_RESPONSE: &str = "\
HTTP/1.1 200 OK\r\n\
Content-Type: text/plain; charset=utf-8\r\n\
Content-Length: 3\r\n\
Osm-Root: 75a22f59df64013528dcb5e169ed9fd2305ff00f4b700f271af080582a6e0671\r\n\
\r\n\
n1\n";

const SECOND_RESPONSE: &str = "\
HTTP/1.1 404 Not Found\r\n\
Content-Type: text/plain; charset=utf-8\r\n\
Content-Length: 10\r\n\
Connection: close\r\n\
\r\n\
not found\n";

/// A reader that gives one LF a call, so many of them, and then its end.
#[derive(Drop)]
struct LineFeeds {
    left: u32,
    calls: u32,
}

impl Read for LineFeeds {
    fn read(&mut self, buf: &mut [u8]) -> io::Result<usize> {
        self.calls = self.calls.saturating_add(1);
        match buf.first_mut() {
            Some(first) if self.left > 0 => {
                self.left -= 1;
                *first = b'\n';
                Ok(1)
            }
            _ => Ok(0),
        }
    }
}

/// Whether a connection whose reader fails at a call has the responses to what was read before; `reads` are those to the
/// end of the second request.
fn check_failing(
    rt: &(impl Abort + AllocGlobal),
    snapshot: &Snapshot,
    input: &[u8],
    fails_at: usize,
    reads: usize,
) -> Result<(), Fail> {
    let mut reader = SlowReader {
        left: input,
        at_once: 1,
        fails_at,
        calls: 0,
    };
    let mut written = Vec::new(rt.alloc());
    let outcome = serve(rt.alloc(), &mut reader, &mut written, snapshot);
    if fails_at == 0 || fails_at > reads {
        assert_eq!(rt; outcome, Ok(()), "{fails_at}");
        assert_eq!(rt; reader.calls, reads);
        let (first, second) = written
            .as_slice()
            .split_at(FIRST_RESPONSE.len().min(written.len()));
        assert_eq!(rt; first, FIRST_RESPONSE.as_bytes());
        assert_eq!(rt; second, SECOND_RESPONSE.as_bytes());
        return Ok(());
    }
    assert_eq!(rt; outcome, Err(GateFault::Reader), "{fails_at}");
    let want = if fails_at > FIRST.len() {
        FIRST_RESPONSE
    } else {
        ""
    };
    assert_eq!(rt; written.as_slice(), want.as_bytes(), "{fails_at}");
    Ok(())
}

/// One byte a read: what was read before the read that fails has its responses.
#[test]
fn readers_fail(rt: HostRuntime) -> Result<(), Fail> {
    let alloc = rt.alloc();
    let snapshot = snapshot_of(alloc, ALL_KINDS, Edition::One)?;
    let input = format!(in alloc; "{FIRST}{SECOND}{FIRST}")?;
    // The second request ends the connection, and what comes after it isn't read.
    let reads = FIRST.len().saturating_add(SECOND.len());
    for fails_at in 0..=reads.saturating_add(1) {
        check_failing(&rt, &snapshot, input.as_bytes(), fails_at, reads)?;
    }
    Ok(())
}

/// At the end of the input the connection is done, though a request isn't complete.
#[test]
fn the_input_ends(rt: HostRuntime) -> Result<(), Fail> {
    let alloc = rt.alloc();
    let snapshot = snapshot_of(alloc, ALL_KINDS, Edition::One)?;
    for len in 0..=FIRST.len() {
        let (input, _) = FIRST.as_bytes().split_at(len);
        let mut reader = SlowReader {
            left: input,
            at_once: 8,
            fails_at: 0,
            calls: 0,
        };
        let mut written = Vec::new(alloc);
        let outcome = serve(alloc, &mut reader, &mut written, &snapshot);
        assert_eq!(rt; outcome, Ok(()));
        let want = fed(alloc, &snapshot, input, b"")?;
        assert_eq!(rt; written.as_slice(), want.responses.as_slice());
    }
    Ok(())
}

/// Whether a connection leaves with a writer what it wrote before the call at which the writer stops.
fn check_stopping(
    rt: &(impl Abort + AllocGlobal),
    snapshot: &Snapshot,
    at_once: usize,
    stops_at: usize,
    stop: Stop,
    want: &[u8],
) -> Result<(), Fail> {
    let input = format!(in rt.alloc(); "{FIRST}{SECOND}")?;
    let mut writer = NarrowWriter {
        taken: Vec::new(rt.alloc()),
        at_once,
        stops_at,
        stop,
        calls: 0,
    };
    let outcome = serve(rt.alloc(), &mut input.as_bytes(), &mut writer, snapshot);
    let taken = writer.taken.as_slice();
    if stops_at == 0 {
        assert_eq!(rt; outcome, Ok(()));
        assert_eq!(rt; taken, want);
        return Ok(());
    }
    assert_eq!(rt; outcome, Err(GateFault::Writer), "{at_once} {stops_at}");
    assert!(rt; want.starts_with(taken), "{at_once} {stops_at}");
    let before = (stops_at - 1).saturating_mul(at_once);
    assert_eq!(rt; taken.len(), before, "{at_once} {stops_at}");
    Ok(())
}

/// A write that fails or takes nothing leaves what was written before it.
#[test]
fn writers_stop(rt: HostRuntime) -> Result<(), Fail> {
    let alloc = rt.alloc();
    let snapshot = snapshot_of(alloc, ALL_KINDS, Edition::One)?;
    let both = format!(in alloc; "{FIRST_RESPONSE}{SECOND_RESPONSE}")?;
    let want = both.as_bytes();
    for (at_once, stop) in [
        (1, Stop::Fails),
        (7, Stop::TakesNothing),
        (7, Stop::Fails),
        (64, Stop::TakesNothing),
    ] {
        for stops_at in 0..=want.len().div_ceil(at_once) {
            check_stopping(&rt, &snapshot, at_once, stops_at, stop, want)?;
        }
    }
    Ok(())
}

/// The number of reads that give bytes, and what becomes of the connection: 2^20 reads are made, and no further one.
const ENDS: [(u32, Result<(), GateFault>); 3] = [
    (1_048_575, Ok(())),
    (1_048_576, Err(GateFault::Endless)),
    (u32::MAX, Err(GateFault::Endless)),
];

#[test]
fn a_connection_without_end_is_given_up(rt: HostRuntime) -> Result<(), Fail> {
    let alloc = rt.alloc();
    let snapshot = snapshot_of(alloc, "", Edition::One)?;
    for (left, wanted) in ENDS {
        let mut reader = LineFeeds { left, calls: 0 };
        let mut written = Vec::new(alloc);
        let outcome = serve(alloc, &mut reader, &mut written, &snapshot);
        assert_eq!(rt; outcome, wanted);
        assert_eq!(rt; reader.calls, 1_048_576);
        assert_eq!(rt; written.len(), 0);
    }
    Ok(())
}

#[test]
fn faults_have_their_codes(rt: HostRuntime) -> Result<(), Fail> {
    for (fault, text) in [
        (GateFault::Reader, "G1"),
        (GateFault::Writer, "G2"),
        (GateFault::Memory, "G3"),
        (GateFault::Endless, "G4"),
    ] {
        let told = format!(in rt.alloc(); "{fault}")?;
        assert_eq!(rt; told.as_str(), text);
    }
    Ok(())
}
