//! Five connections whose events come in any order, with publications between, beside a gate for each that has a
//! snapshot for itself, which is built anew of the set that is in force.

use super::{arrival, desk_of, gives_nothing, hears, publishes, refusal_of, snapshot_of};
use osm_desk::{Desk, DeskFault, Event};
use osm_gate::Gate;
use osm_index::Snapshot;
use std::alloc::Global;
use std::collections::BTreeMap;
use std::process::Abort;
use std::test::Fail;
use test_devices::Numbers;

/// What each connection sends, again and again.
const TEXT: &[u8] = b"\
GET /api/root HTTP/1.1\r\n\r\n\
GET /api/interpreter?data=node(-9,-9,9,9);out; HTTP/1.1\r\n\r\n\r\n\
POST /api/checked HTTP/1.1\r\nContent-Length: 12\r\n\r\nnode(1);out;\
GET /x HTTP/1.1\r\n\r\n";

/// The desk, and what stands beside it.
#[derive(Drop)]
struct Beside {
    desk: Desk<Snapshot>,
    gates: BTreeMap<u32, Gate>,
    snapshot: Snapshot,
    /// Whether there is n1, and whether there is n2.
    there: [bool; 2],
    sequence: u64,
}

/// The set of those of n1 and n2 that are there.
fn set_text(there: [bool; 2]) -> &'static str {
    match there {
        [false, false] => "",
        [true, false] => "n1 x1 y1\n",
        [false, true] => "n2 x2 y2\n",
        [true, true] => "n1 x1 y1\nn2 x2 y2\n",
    }
}

/// Publishes that n1 or n2 comes or goes.
fn publish(rt: &(impl Abort + AllocGlobal), beside: &mut Beside, second: bool) -> Result<(), Fail> {
    let [one, two] = beside.there;
    let (changes, there) = match (second, one, two) {
        (false, true, _) => ("n1 dD\n", [false, two]),
        (false, false, _) => ("n1 x1 y1\n", [true, two]),
        (true, _, true) => ("n2 dD\n", [one, false]),
        (true, _, false) => ("n2 x2 y2\n", [one, true]),
    };
    assert!(rt; publishes(rt.alloc(), &mut beside.desk, changes)?);
    beside.there = there;
    beside.sequence = beside.sequence.saturating_add(1);
    beside.snapshot = snapshot_of(rt.alloc(), set_text(there), beside.sequence)?;
    assert!(rt; beside.desk.snapshot().root() == beside.snapshot.root());
    Ok(())
}

/// Opens a connection, or finds it open.
fn open(rt: &(impl Abort + AllocGlobal), beside: &mut Beside, number: u32) -> Result<(), Fail> {
    if beside.gates.contains_key(&number) {
        let refusal = refusal_of(&mut beside.desk, Event::Open(number));
        assert_eq!(rt; refusal, Some(DeskFault::AlreadyOpen));
        return Ok(());
    }
    assert!(rt; gives_nothing(&mut beside.desk, Event::Open(number)));
    beside.gates.insert(number, Gate::new(rt.alloc())?)?;
    Ok(())
}

/// What the gate of a connection responds to a piece; none where it has no gate.
fn expected(beside: &mut Beside, number: u32, piece: &[u8]) -> Result<Option<Vec<u8>>, Fail> {
    match beside.gates.get_mut(&number) {
        Some(gate) => Ok(Some(gate.feed(piece, &beside.snapshot)?)),
        None => Ok(None),
    }
}

/// Sends a piece, which the connection takes as its gate does.
fn send(
    rt: &(impl Abort + AllocGlobal),
    beside: &mut Beside,
    number: u32,
    piece: &[u8],
) -> Result<(), Fail> {
    match expected(beside, number, piece)? {
        Some(want) => {
            assert!(rt; hears(rt.alloc(), &mut beside.desk, number, piece, &want)?);
        }
        None => {
            let event = arrival(rt.alloc(), number, piece)?;
            assert_eq!(rt;
                refusal_of(&mut beside.desk, event),
                Some(DeskFault::NotOpen)
            );
        }
    }
    Ok(())
}

/// Ends a connection, or finds it ended.
fn end(rt: &impl Abort, beside: &mut Beside, number: u32) {
    if beside.gates.remove(&number).is_some() {
        assert!(rt; gives_nothing(&mut beside.desk, Event::End(number)));
    } else {
        let refusal = refusal_of(&mut beside.desk, Event::End(number));
        assert_eq!(rt; refusal, Some(DeskFault::NotOpen));
    }
}

/// The piece of the text that a connection sends next, and where it goes on.
fn piece_at(at: usize, len: usize) -> (&'static [u8], usize) {
    let left = TEXT.get(at..).unwrap_or(b"");
    let (piece, rest) = left.split_at(len.min(left.len()));
    let next = TEXT.len().saturating_sub(rest.len());
    (piece, if rest.is_empty() { 0 } else { next })
}

/// Takes the next step.
fn step(
    rt: &(impl Abort + AllocGlobal),
    beside: &mut Beside,
    places: &mut [usize; 5],
    numbers: &mut Numbers,
) -> Result<(), Fail> {
    let number = numbers.below(5);
    match numbers.below(20) {
        0 => end(rt, beside, number),
        1 | 2 => {
            // A new connection begins at the front, or amid a request.
            if let Some(place) = places.get_mut(number as usize) {
                *place = if numbers.below(4) > 0 { 0 } else { *place };
            }
            open(rt, beside, number)?;
        }
        3 => {
            let second = numbers.below(2) > 0;
            publish(rt, beside, second)?;
        }
        _ => {
            if let Some(place) = places.get_mut(number as usize) {
                let (piece, next) = piece_at(*place, numbers.below(60) as usize);
                *place = next;
                send(rt, beside, number, piece)?;
            }
        }
    }
    Ok(())
}

/// A desk over no objects.
fn no_objects(alloc: Global) -> Result<Beside, Fail> {
    Ok(Beside {
        desk: desk_of(alloc, "")?,
        gates: BTreeMap::new(alloc),
        snapshot: snapshot_of(alloc, "", 0)?,
        there: [false, false],
        sequence: 0,
    })
}

/// Takes 400 steps.
fn steps(rt: &(impl Abort + AllocGlobal), beside: &mut Beside, seed: u64) -> Result<(), Fail> {
    let mut places = [0; 5];
    let mut numbers = Numbers::new(seed);
    for _ in 0..400 {
        step(rt, beside, &mut places, &mut numbers)?;
    }
    Ok(())
}

#[test]
fn each_is_as_if_alone(rt: HostRuntime) -> Result<(), Fail> {
    for seed in 1..4 {
        let mut beside = no_objects(rt.alloc())?;
        steps(&rt, &mut beside, seed)?;
    }
    Ok(())
}
