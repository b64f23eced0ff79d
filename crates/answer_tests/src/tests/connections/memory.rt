//! Memory that is refused. Run with each allocation refused in turn: the whole result, or out of memory and then the
//! whole result.

use crate::tests::snapshot_of;
use crate::tests::texts_of_sets::ALL_KINDS;
use osm_gate::{Gate, GateFault, serve};
use osm_index::{Edition, Snapshot};
use std::alloc::{AllocError, Global};
use std::io;
use std::io::Write;
use std::process::Abort;
use std::test::Fail;
use test_devices::SlowReader;

const SENT: &[u8] =
    b"GET /api/interpreter?data=node%281%29%3Bout%20ids%3B HTTP/1.1\r\nHost: h\r\n\r\n";

const RESPONSE: &[u8] = b"\
HTTP/1.1 200 OK\r\n\
Content-Type: text/plain; charset=utf-8\r\n\
Content-Length: 3\r\n\
Osm-Root: 75a22f59df64013528dcb5e169ed9fd2305ff00f4b700f271af080582a6e0671\r\n\
\r\n\
n1\n";

const NO_MEMORY: &[u8] = b"\
HTTP/1.1 503 Service Unavailable\r\n\
Content-Type: text/plain; charset=utf-8\r\n\
Content-Length: 10\r\n\
Connection: close\r\n\
\r\n\
no memory\n";

/// Feeds a piece; out of memory the gate is as before, and is fed the piece again.
fn feed_twice(
    rt: &(impl Abort + AllocGlobal),
    gate: &mut Gate,
    piece: &[u8],
    snapshot: &Snapshot,
) -> Result<Vec<u8>, Fail> {
    let before = gate.left().to_vec(rt.alloc())?;
    if let Ok(responses) = gate.feed(piece, snapshot) {
        return Ok(responses);
    }
    assert_eq!(rt; gate.left(), before.as_slice());
    assert!(rt; !gate.closed());
    Ok(gate.feed(piece, snapshot)?)
}

/// These texts, one after the other.
fn joined(alloc: Global, texts: &[&[u8]]) -> Result<Vec<u8>, AllocError> {
    let mut whole = Vec::new(alloc);
    for text in texts {
        whole.extend_from_slice(text)?;
    }
    Ok(whole)
}

/// Feeds these texts as one piece, after which these responses come.
fn check_fed(
    rt: &(impl Abort + AllocGlobal),
    gate: &mut Gate,
    texts: &[&[u8]],
    snapshot: &Snapshot,
    wanted: &[&[u8]],
) -> Result<(), Fail> {
    let piece = joined(rt.alloc(), texts)?;
    let responses = feed_twice(rt, gate, &piece, snapshot)?;
    assert_eq!(rt; responses, joined(rt.alloc(), wanted)?);
    Ok(())
}

/// Half a request, and the other half with a whole one after it.
#[test]
fn feeds_within_memory(rt: HostRuntime) -> Result<(), Fail> {
    let snapshot = snapshot_of(rt.alloc(), ALL_KINDS, Edition::One)?;
    let mut gate = Gate::new(rt.alloc())?;
    let (first, half) = SENT.split_at(40);
    check_fed(&rt, &mut gate, &[first], &snapshot, &[])?;
    check_fed(
        &rt,
        &mut gate,
        &[half, SENT],
        &snapshot,
        &[RESPONSE, RESPONSE],
    )
}

/// A writer that takes no memory.
#[derive(Drop)]
struct FixedWriter {
    taken: [u8; 512],
    len: usize,
}

impl Write for FixedWriter {
    fn write(&mut self, buf: &[u8]) -> io::Result<usize> {
        let Some(room) = self.taken.get_mut(self.len..) else {
            return Ok(0);
        };
        let len = room.len().min(buf.len());
        room[..len].copy_from_slice(&buf[..len]);
        self.len = self.len.saturating_add(len);
        Ok(len)
    }

    fn flush(&mut self) -> io::Result<()> {
        Ok(())
    }
}

/// Whether the writer has got these texts and nothing else.
fn has_got(alloc: Global, writer: &FixedWriter, texts: &[&[u8]]) -> Result<bool, Fail> {
    let whole = joined(alloc, texts)?;
    Ok(writer.taken.get(..writer.len) == Some(whole.as_slice()))
}

/// Two requests, a piece each: out of memory what was read before has its response, and then comes the fixed one.
#[test]
fn serves_within_memory(rt: HostRuntime) -> Result<(), Fail> {
    let alloc = rt.alloc();
    let snapshot = snapshot_of(alloc, ALL_KINDS, Edition::One)?;
    let mut input = SENT.to_vec(alloc)?;
    input.extend_from_slice(SENT)?;
    let mut reader = SlowReader {
        left: &input,
        at_once: SENT.len(),
        fails_at: 0,
        calls: 0,
    };
    let mut writer = FixedWriter {
        taken: [0; 512],
        len: 0,
    };
    let outcome = serve(alloc, &mut reader, &mut writer, &snapshot);
    match outcome {
        Ok(()) => assert!(rt; has_got(alloc, &writer, &[RESPONSE, RESPONSE])?),
        Err(fault) => {
            assert_eq!(rt; fault, GateFault::Memory);
            let texts = match reader.calls {
                0 | 1 => [NO_MEMORY].as_slice(),
                _ => [RESPONSE, NO_MEMORY].as_slice(),
            };
            assert!(rt; has_got(alloc, &writer, texts)?);
        }
    }
    Ok(())
}
