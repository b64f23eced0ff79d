//! A connection of a desk over a reader and a writer.

ghost use Rattle.std.specs.FinMap.{get, len};
ghost use Rattle.std.specs.Prelude.{◌≡◌, ◌<◌, None, OnOk};
ghost use Rattle.osm_gate.specs.Serving.{HasEnded, HasServed};
ghost use Rattle.osm_keys.specs.Publications.{Publication};
ghost use Rattle.osm_index.specs.Snapshots.{HoldsPublication};
ghost use Rattle.osm_desk.specs.declared.limits.TheConstants.{CONNECTION_LIMIT};

use crate::desk::Desk;
use crate::open_connection::OpenConnection;
use osm_gate::{GateFault, send_out_of_memory, serve_connection};
use osm_index::Snapshot;
use std::io::{Read, Write};

impl Desk<Snapshot> {
    /// Responds to the requests of a new connection of this number, until its input ends or the connection does, as
    /// [`osm_gate::serve`] does over the desk's snapshot. The number has to be free, and fewer than 64 connections open.
    /// Afterwards, after a refusal too, the connection is forgotten and the desk as before. The program serves by
    /// `osm_traffic::serve_many`, many connections at a time.
    ///
    /// # Errors
    ///
    /// Those of [`osm_gate::serve`]: `Reader` (G1), `Writer` (G2), `Memory` (G3) and `Endless` (G4), each with what was
    /// written by then.
    pub fn serve_on<R: Read, W: Write>(
        &mut self,
        number: u32,
        reader: &mut R,
        writer: &mut W,
    ) -> Result<(), GateFault>
        requires free { get self.old.connections number ≡ None }
        requires room { len self.old.connections < CONNECTION_LIMIT }
        // What was read, piece by piece, and what was written, whichever way it ended.
        ensures ended { (p : Publication) → HoldsPublication self.old.mirror p
            → HasEnded p (record {
              unread = R.remaining reader.old;
              left = R.remaining reader.new;
              before = W.contents writer.old;
              after = W.contents writer.new;
            }) result }
        // So what was written responds to the whole input, where nothing broke off.
        ensures done { (p : Publication) → HoldsPublication self.old.mirror p
            → OnOk result (HasServed p
            (record {
              unread = R.remaining reader.old;
              left = R.remaining reader.new;
              before = W.contents writer.old;
              after = W.contents writer.new;
            })) }
        // The desk is as before.
        ensures forgotten { self.new ≡ self.old }
    {
        let Ok(()) = self.open(number) else {
            return Err(send_out_of_memory(writer));
        };
        let mut connection = OpenConnection {
            desk: &mut *self,
            number,
        };
        let served = serve_connection(&mut connection, reader, writer);
        self.forget(number);
        served
    }
}
