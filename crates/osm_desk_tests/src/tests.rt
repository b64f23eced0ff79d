//! Desks over small sets of objects.

mod announced;
mod interleavings;
mod memory;
mod refusals;
mod rows;
mod serving;
mod wanted;

use opl_codec::{read_changes, read_set};
use osm_desk::{Desk, DeskFault, Event};
use osm_index::{Edition, Snapshot};
use std::alloc::Global;
use std::test::Fail;

/// Objects of all kinds.
const ALL_KINDS: &str = "\
n1 v1 dV c5 t2020-01-02T03:04:05Z i7 uAnn Thighway=crossing x13.4 y52.5\n\
n2 x13.4000001 y52.5\n\
w10 Thighway=primary,name=A%20%B Nn1,n2,n1\n\
r100 Ttype=route Mw10@outer,n99@stop,r100@\n\
";

/// Those without n1.
const WITHOUT_N1: &str = "\
n2 x13.4000001 y52.5\n\
w10 Thighway=primary,name=A%20%B Nn1,n2,n1\n\
r100 Ttype=route Mw10@outer,n99@stop,r100@\n\
";

/// A request for n1.
const ASKED: &[u8] =
    b"GET /api/interpreter?data=node%281%29%3Bout%20ids%3B HTTP/1.1\r\nHost: h\r\n\r\n";

/// Its response over `ALL_KINDS` at sequence 0, whose root an independent program made.
const RESPONSE: &[u8] = b"\
HTTP/1.1 200 OK\r\n\
Content-Type: text/plain; charset=utf-8\r\n\
Content-Length: 3\r\n\
Osm-Root: e66900236b879ef283a337e2d57ae34c0a3a919610d5dc475f092354538f6732\r\n\
\r\n\
n1\n";

/// The snapshot of the set of this text, in the second edition at this sequence.
fn snapshot_of(alloc: Global, set: &str, sequence: u64) -> Result<Snapshot, Fail> {
    let set = read_set(alloc, &mut set.as_bytes())?;
    Ok(Snapshot::build(alloc, set, Edition::Two { sequence })?)
}

/// A desk over the set of this text at sequence 0.
fn desk_of(alloc: Global, set: &str) -> Result<Desk<Snapshot>, Fail> {
    Ok(Desk::new(alloc, snapshot_of(alloc, set, 0)?))
}

/// The arrival of a piece.
fn arrival(alloc: Global, number: u32, piece: &[u8]) -> Result<Event, Fail> {
    Ok(Event::Arrive(number, piece.to_vec(alloc)?))
}

/// The publication of the changes of this text.
fn publication(alloc: Global, changes: &str) -> Result<Event, Fail> {
    Ok(Event::Publish(read_changes(alloc, &mut changes.as_bytes())?))
}

/// Takes an event. It has no clauses, so that the proofs of the tests carry none of those of a step.
fn step(desk: &mut Desk<Snapshot>, event: Event) -> Result<Vec<(u32, Vec<u8>)>, DeskFault> {
    desk.step(event)
}

/// Whether an event gives these bytes to this connection, and nothing else.
fn gives(desk: &mut Desk<Snapshot>, event: Event, number: u32, bytes: &[u8]) -> bool {
    match step(desk, event) {
        Ok(answers) => match answers.first() {
            Some((to, responses)) => {
                answers.len() == 1 && *to == number && responses.as_slice() == bytes
            }
            None => false,
        },
        Err(_) => false,
    }
}

/// Whether an event gives nothing.
fn gives_nothing(desk: &mut Desk<Snapshot>, event: Event) -> bool {
    match step(desk, event) {
        Ok(answers) => answers.is_empty(),
        Err(_) => false,
    }
}

/// Why an event is refused, if it is.
fn refusal_of(desk: &mut Desk<Snapshot>, event: Event) -> Option<DeskFault> {
    step(desk, event).err()
}

/// Whether a connection takes a piece, and gets these bytes.
fn hears(
    alloc: Global,
    desk: &mut Desk<Snapshot>,
    number: u32,
    piece: &[u8],
    bytes: &[u8],
) -> Result<bool, Fail> {
    let event = arrival(alloc, number, piece)?;
    Ok(gives(desk, event, number, bytes))
}

/// Whether changes are published.
fn publishes(alloc: Global, desk: &mut Desk<Snapshot>, changes: &str) -> Result<bool, Fail> {
    let event = publication(alloc, changes)?;
    Ok(gives_nothing(desk, event))
}

/// The root of the snapshot that is in force, in hexadecimal digits.
fn root_of(alloc: Global, snapshot: &Snapshot) -> Result<String, Fail> {
    Ok(hex::encode(alloc, snapshot.root().0.as_slice())?)
}

/// The response of status 200 with this root and this body of text.
fn found(alloc: Global, snapshot: &Snapshot, body: &str) -> Result<String, Fail> {
    let root = root_of(alloc, snapshot)?;
    let len = body.len();
    Ok(format!(in alloc;
        "HTTP/1.1 200 OK\r\nContent-Type: text/plain; charset=utf-8\r\nContent-Length: {len}\r\nOsm-Root: {root}\r\n\r\n{body}"
    )?)
}
