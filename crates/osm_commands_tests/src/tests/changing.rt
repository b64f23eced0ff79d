//! `serve` over a desk: change files between connections.

ghost use Rattle.std.specs.FinMap.{empty};
ghost use Rattle.std.specs.Prelude.{◌≡◌, IfOk, None};

use super::ALL_KINDS;
use super::serving::Inputs;
use osm_commands::{CommandFault, read_snapshot};
use osm_desk::Desk;
use osm_index::{Edition, Snapshot, Unwatched};
use osm_serving::{ChangeSource, serve_desk};
use std::alloc::{AllocError, Global};
use std::collections::VecDeque;
use std::io::Cursor;
use std::test::Fail;

/// A GET of the root, after which the connection ends.
const ROOT_REQUEST: &str = "GET /api/root HTTP/1.1\r\nConnection: close\r\n\r\n";

/// What a source says when it is asked.
#[derive(Clone, Copy)]
enum Found {
    File(&'static str),
    Nothing,
    BrokenFile,
    NoMemory,
}

/// A source that says these things, one a question, and then has nothing more; it keeps what it was asked for.
#[derive(Drop)]
struct Answers {
    alloc: Global,
    left: VecDeque<Found>,
    asked: Vec<u64>,
}

impl ChangeSource for Answers {
    type Reader = Cursor<Vec<u8>>;

    ghost asked = { λ _. None };

    ghost found = { λ _. None };

    fn change_file(&mut self, sequence: u64) -> Result<Option<Cursor<Vec<u8>>>, CommandFault> {
        if self.asked.push(sequence).is_err() {
            return Err(CommandFault::Memory);
        }
        match self.left.pop_front() {
            Some(Found::File(text)) => Ok(Some(Cursor::new(text.as_bytes().to_vec(self.alloc)?))),
            Some(Found::BrokenFile) => Err(CommandFault::Device),
            Some(Found::NoMemory) => Err(CommandFault::Memory),
            Some(Found::Nothing) | None => Ok(None),
        }
    }

    fn note_refused(&mut self) {}
}

/// A server's surroundings: where its changes and its connections come from, and its lines of errors.
#[derive(Drop)]
struct Site {
    source: Answers,
    listener: Inputs,
    errors: Vec<u8>,
}

impl Site {
    /// No changes and no connections yet.
    fn new(alloc: Global) -> Site {
        Site {
            source: Answers {
                alloc,
                left: VecDeque::new(alloc),
                asked: Vec::new(alloc),
            },
            listener: Inputs::new(alloc),
            errors: Vec::new(alloc),
        }
    }
}

/// Surroundings with this number of clients who ask for the root, whose source says these things.
fn site_of(alloc: Global, says: &[Found], number: u32) -> Result<Site, AllocError> {
    let mut site = Site::new(alloc);
    for found in says {
        site.source.left.push_back(*found)?;
    }
    for _ in 0..number {
        site.listener.add(ROOT_REQUEST)?;
    }
    Ok(site)
}

/// A desk over the set of all kinds at this sequence.
fn desk_at(alloc: Global, sequence: u64) -> Result<Desk<Snapshot>, Fail>
    ensures { IfOk result (λ desk. desk.connections ≡ empty) }
{
    let snapshot = read_snapshot(
        alloc,
        &mut ALL_KINDS.as_bytes(),
        Edition::Two { sequence },
        &mut Unwatched,
    )?;
    Ok(Desk::new(alloc, snapshot))
}

/// Serves this number of connections at the desk.
fn serve_at(
    alloc: Global,
    desk: &mut Desk<Snapshot>,
    site: &mut Site,
    number: u32,
) -> Result<(), Fail>
    requires { desk.old.connections ≡ empty }
{
    serve_desk(
        alloc,
        desk,
        &mut site.source,
        &mut site.listener,
        number,
        &mut site.errors,
    )?;
    Ok(())
}

/// What comes of serving the set of all kinds to this number of clients, where the source says these things.
fn served(alloc: Global, says: &[Found], number: u32) -> Result<Site, Fail> {
    let mut site = site_of(alloc, says, number)?;
    let mut desk = desk_at(alloc, 0)?;
    serve_at(alloc, &mut desk, &mut site, number)?;
    Ok(site)
}

/// The response with the root of a set at a sequence, built from nothing.
fn response_of(alloc: Global, set: &str, sequence: u64) -> Result<String, Fail> {
    let snapshot = read_snapshot(
        alloc,
        &mut set.as_bytes(),
        Edition::Two { sequence },
        &mut Unwatched,
    )?;
    let root = hex::encode(alloc, snapshot.root().0)?;
    Ok(format!(in alloc;
        "HTTP/1.1 200 OK\r\nContent-Type: text/plain; charset=utf-8\r\nContent-Length: 65\r\nOsm-Root: {root}\r\nConnection: close\r\n\r\n{root}\n"
    )?)
}

/// What clients get who are told the roots of these sets at these sequences, one after the other.
fn responses(alloc: Global, sets: &[(&str, u64)]) -> Result<String, Fail> {
    let mut all = String::new(alloc);
    for (set, sequence) in sets {
        all.push_str(&response_of(alloc, set, *sequence)?)?;
    }
    Ok(all)
}

/// The set of all kinds without its way.
pub(super) const WITHOUT_WAY: &str = "\
n1 v1 dV c5 t2020-01-02T03:04:05Z i7 uAnn Thighway=crossing x13.4 y52.5
n2 x13.4000001 y52.5
r100 Ttype=route Mw10@outer,n99@stop,r100@
";

/// That set without its second node.
const WITHOUT_NODE: &str = "\
n1 v1 dV c5 t2020-01-02T03:04:05Z i7 uAnn Thighway=crossing x13.4 y52.5
r100 Ttype=route Mw10@outer,n99@stop,r100@
";

pub(super) const DELETE_WAY: &str = "w10 v2 dD\n";

/// What each client's connection finds in the source: a file is published before the client is served; a refused one is
/// told in a line, the same sequence is asked for again, and what was in force stays.
#[test]
fn files_change_what_is_served_and_refused_ones_change_nothing(
    rt: HostRuntime,
) -> Result<(), Fail> {
    let alloc = rt.alloc();
    let says = [
        Found::Nothing,
        Found::File(DELETE_WAY),
        Found::File(DELETE_WAY),
        Found::File("n3 x1 y1\nn1 x13.4\n"),
        Found::File("n5 x0 y0\nn5 dD\n"),
        Found::BrokenFile,
        Found::NoMemory,
        Found::File("n2 v2 dD\n"),
    ];
    let mut sets = [(WITHOUT_WAY, 1); 8];
    sets[0] = (ALL_KINDS, 0);
    sets[7] = (WITHOUT_NODE, 2);
    let site = served(alloc, &says, 8)?;
    assert!(rt; site.listener.written.as_slice() == responses(alloc, &sets)?.as_bytes());
    assert!(rt;
        site.errors.as_slice() == b"I2 w10\nO9 line 2 byte 8\nI3 n5\ndevice\nno memory\n".as_slice()
    );
    assert!(rt; site.source.asked.as_slice() == [1, 1, 2, 2, 2, 2, 2, 2].as_slice());
    Ok(())
}
