//! A connection over a reader and a writer.

ghost use Rattle.std.specs.Prelude.{◌≡◌, ◌⊎◌, OnOk, []};
ghost use Rattle.std.specs.Io.KnownBytes.{Appends};
ghost use Rattle.osm_keys.specs.Publications.{Publication};
ghost use Rattle.osm_index.specs.Snapshots.{HoldsPublication};
ghost use Rattle.osm_gate.specs.Connections.{open_rest};
ghost use Rattle.osm_gate.specs.Serving.{HasEnded, HasServed, exchange_of, no_memory};
ghost use Rattle.byte_io.specs.Written.{AppendsFront};

use crate::connection::Connection;
use crate::gate::Gate;
use crate::gate_fault::GateFault;
use crate::limits::{PIECE_LIMIT, READ_LIMIT};
use crate::snapshot_connection::SnapshotConnection;
use byte_io::{NotWritten, write_whole};
use osm_index::Snapshot;
use std::alloc::Global;
use std::io::{Read, Write};

/// Responds to the requests of one connection, until its input ends or the connection does: nothing is read after that.
/// It is read in pieces of at most 8,192 bytes, and the responses to each piece are written before the next is read.
///
/// This serves one connection at a time; the program serves many by `osm_traffic::serve_many`, over a [`Gate`] for each.
///
/// # Errors
///
/// `Reader` (G1) where a read failed: what was read before has its responses. `Writer` (G2) where a write failed or
/// took nothing: a beginning of the responses was written. `Memory` (G3) where an allocation was refused: what was
/// read before the last piece has its responses, and a fixed response of status 503 comes after them. `Endless`
/// (G4) after 1,048,576 reads, each of which gave bytes, if the connection is open then: no further read is made.
///
/// Clauses that speak of bytes do so where the reader and the writer tell them.
pub fn serve<R: Read, W: Write>(
    alloc: Global,
    reader: &mut R,
    writer: &mut W,
    snapshot: &Snapshot,
) -> Result<(), GateFault>
    // What was read, piece by piece, and what was written, whichever way it ended.
    ensures ended { (p : Publication) → HoldsPublication snapshot.now p
        → HasEnded p (exchange_of R.remaining W.contents
        reader.old reader.new writer.old writer.new) result }
    // So what was written responds to the whole input, where nothing broke off.
    ensures done { (p : Publication) → HoldsPublication snapshot.now p
        → OnOk result (HasServed p (exchange_of R.remaining W.contents
        reader.old reader.new writer.old writer.new)) }
{
    let Ok(gate) = Gate::new(alloc) else {
        return Err(send_out_of_memory(writer));
    };
    let mut connection = SnapshotConnection { gate, snapshot };
    serve_connection(&mut connection, reader, writer)
}

/// Responds to the requests of a new connection, as [`serve`] does: it is the loop of `serve`, for a connection of any
/// kind.
///
/// # Errors
///
/// Those of [`serve`].
pub fn serve_connection<C: Connection, R: Read, W: Write>(
    connection: &mut C,
    reader: &mut R,
    writer: &mut W,
) -> Result<(), GateFault>
    requires { C.rest connection.old ≡ open_rest [] }
    // What was read, piece by piece, and what was written, whichever way it ended.
    ensures ended { (p : Publication) → C.over connection.old p
        → HasEnded p (exchange_of R.remaining W.contents
        reader.old reader.new writer.old writer.new) result }
    // So what was written responds to the whole input, where nothing broke off.
    ensures done { (p : Publication) → C.over connection.old p
        → OnOk result (HasServed p (exchange_of R.remaining W.contents
        reader.old reader.new writer.old writer.new)) }
    // It is the same connection.
    ensures later { C.later connection.old connection.new }
{
    let mut piece = [0; PIECE_LIMIT];
    let mut reads = 0;
    while reads < READ_LIMIT {
        let Ok(n) = reader.read(&mut piece) else {
            return Err(GateFault::Reader);
        };
        if n == 0 {
            return Ok(());
        }
        let Ok(responses) = connection.feed(&piece[..n]) else {
            return Err(send_out_of_memory(writer));
        };
        write_whole(writer, &responses)?;
        if connection.closed() {
            return Ok(());
        }
        reads += 1;
    }
    Err(GateFault::Endless)
}

/// Tells the client that memory has run out. It takes none. The fault is `Memory`, or `Writer` where a write failed or
/// took nothing.
pub fn send_out_of_memory<W: Write>(writer: &mut W) -> GateFault
    // The fixed response is written, unless the writer fails,
    ensures whole { result ≡ GateFault.Memory
        → Appends (W.contents writer.old) (W.contents writer.new) no_memory }
    // and whatever happens, no more than a beginning of it.
    ensures begun { AppendsFront (W.contents writer.old) (W.contents writer.new) no_memory }
    ensures kinds { (result ≡ GateFault.Memory) ⊎ (result ≡ GateFault.Writer) }
{
    match write_whole(writer, no_memory_response()) {
        Ok(()) => GateFault::Memory,
        Err(NotWritten) => GateFault::Writer,
    }
}

/// The fixed response where memory runs out: of status 503, after which the connection ends.
pub fn no_memory_response() -> &'static [u8]
    ensures { result.now ≡ no_memory }
{
    b"HTTP/1.1 503 Service Unavailable\r\nContent-Type: text/plain; charset=utf-8\r\nContent-Length: 10\r\nConnection: close\r\n\r\nno memory\n"
}
