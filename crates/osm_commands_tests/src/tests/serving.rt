//! `serve` over listeners of the test's own, and the line with which a server begins.

ghost use Rattle.std.specs.Prelude.{None};

use super::ALL_KINDS;
use osm_commands::{CommandFault, listening_line, read_snapshot};
use osm_index::{Edition, Snapshot, Unwatched};
use osm_serving::{Listener, serve};
use std::alloc::{AllocError, Global};
use std::collections::VecDeque;
use std::io::{Cursor, Write};
use std::net::SocketAddr;
use std::test::Fail;

/// The set's root in edition 1, as an independent program computed it.
const ROOT: &str = "75a22f59df64013528dcb5e169ed9fd2305ff00f4b700f271af080582a6e0671";

/// A POST of 16 bytes, after which the connection ends.
const REQUEST: &str =
    "POST /api/interpreter HTTP/1.1\r\nContent-Length: 16\r\nConnection: close\r\n\r\nnode(1);out ids;";

/// A listener that gives these inputs, one a connection, and then fails; what is written is kept.
#[derive(Drop)]
pub(super) struct Inputs {
    alloc: Global,
    left: VecDeque<Vec<u8>>,
    pub(super) written: Vec<u8>,
}

impl Inputs {
    /// A listener without inputs.
    pub(super) fn new(alloc: Global) -> Inputs {
        Inputs {
            alloc,
            left: VecDeque::new(alloc),
            written: Vec::new(alloc),
        }
    }

    /// One more connection, on which this is asked.
    pub(super) fn add(&mut self, request: &str) -> Result<(), AllocError> {
        let request = request.as_bytes().to_vec(self.alloc)?;
        self.left.push_back(request)?;
        Ok(())
    }
}

impl Listener for Inputs {
    type Reader = Cursor<Vec<u8>>;

    type Writer = Vec<u8>;

    ghost accepted = { λ _. None };

    fn accept(&mut self) -> Result<(Cursor<Vec<u8>>, Vec<u8>), CommandFault> {
        match self.left.pop_front() {
            Some(bytes) => Ok((Cursor::new(bytes), Vec::new(self.alloc))),
            None => Err(CommandFault::Device),
        }
    }

    fn close(&mut self, _reader: Cursor<Vec<u8>>, writer: Vec<u8>) {
        let _ = self.written.extend_from_slice(&writer);
    }
}

/// The snapshot of the set of all kinds in edition 1.
fn snapshot(alloc: Global) -> Result<Snapshot, CommandFault> {
    read_snapshot(
        alloc,
        &mut ALL_KINDS.as_bytes(),
        Edition::One,
        &mut Unwatched,
    )
}

/// So many responses to the request.
fn responses(alloc: Global, number: usize) -> Result<String, Fail> {
    let mut all = String::new(alloc);
    for _ in 0..number {
        write!(
            all,
            "HTTP/1.1 200 OK\r\nContent-Type: text/plain; charset=utf-8\r\nContent-Length: 3\r\nOsm-Root: {ROOT}\r\nConnection: close\r\n\r\nn1\n"
        )?;
    }
    Ok(all)
}

/// Serves so many connections, of which two come.
fn serve_two(
    alloc: Global,
    snapshot: &Snapshot,
    listener: &mut Inputs,
    number: u32,
) -> Result<Result<(), CommandFault>, AllocError> {
    listener.add(REQUEST)?;
    listener.add(REQUEST)?;
    let mut errors = Vec::new(alloc);
    Ok(serve(alloc, snapshot, listener, number, &mut errors))
}

/// As many connections are served as are asked for, or as come before the listener fails.
#[test]
fn serves_from_a_door(rt: HostRuntime) -> Result<(), Fail> {
    let alloc = rt.alloc();
    let snapshot = snapshot(alloc)?;
    for (number, outcome, served) in [(1, Ok(()), 1), (3, Err(CommandFault::Device), 2)] {
        let mut listener = Inputs::new(alloc);
        let ended = serve_two(alloc, &snapshot, &mut listener, number)?;
        assert!(rt;
            ended == outcome && listener.left.len() == 2 - served,
            "{number}"
        );
        assert!(rt;
            listener.written.as_slice() == responses(alloc, served)?.as_bytes(),
            "{number}"
        );
    }
    Ok(())
}

#[test]
fn listening_is_told(rt: HostRuntime) -> Result<(), Fail> {
    let alloc = rt.alloc();
    let snapshot = snapshot(alloc)?;
    let line = listening_line(alloc, SocketAddr::from(([127, 0, 0, 1], 8081)), &snapshot)?;
    let want = format!(in alloc;
        "osm_mirror listens on 127.0.0.1:8081, over 4 objects, root {ROOT}\n"
    )?;
    assert!(rt; line.as_str() == want.as_str());
    Ok(())
}
