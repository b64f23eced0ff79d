//! Connections over small sets of objects.

mod checked;
mod chunks;
mod further_rows;
mod memory;
mod pieces;
mod rows;
mod serving;

use osm_gate::Gate;
use osm_index::Snapshot;
use std::alloc::Global;
use std::test::Fail;

/// The root of all kinds of objects in edition 1, as an independent program made it.
const ROOT: &str = "75a22f59df64013528dcb5e169ed9fd2305ff00f4b700f271af080582a6e0671";

/// The same in edition 2 at sequence 0.
const LATER_ROOT: &str = "e66900236b879ef283a337e2d57ae34c0a3a919610d5dc475f092354538f6732";

/// The root of no objects in edition 1.
const ROOT_OF_NONE: &str = "d15409ab6166f71beaff4544e4d62e1ff9fd4442699d90b7a114f26e4c8cb88f";

/// What a connection came to.
#[derive(Drop)]
struct Seen {
    responses: Vec<u8>,
    left: Vec<u8>,
    closed: bool,
}

/// What a connection comes to that is fed two pieces.
fn fed(alloc: Global, snapshot: &Snapshot, first: &[u8], second: &[u8]) -> Result<Seen, Fail> {
    let mut gate = Gate::new(alloc)?;
    let mut responses = gate.feed(first, snapshot)?;
    responses.extend_from_slice(&gate.feed(second, snapshot)?)?;
    Ok(Seen {
        responses,
        left: gate.left().to_vec(alloc)?,
        closed: gate.closed(),
    })
}

/// The same, a byte a piece.
fn fed_bytewise(alloc: Global, snapshot: &Snapshot, bytes: &[u8]) -> Result<Seen, Fail> {
    let mut gate = Gate::new(alloc)?;
    let mut responses = Vec::new(alloc);
    for byte in bytes {
        responses.extend_from_slice(&gate.feed(&[*byte], snapshot)?)?;
    }
    Ok(Seen {
        responses,
        left: gate.left().to_vec(alloc)?,
        closed: gate.closed(),
    })
}
