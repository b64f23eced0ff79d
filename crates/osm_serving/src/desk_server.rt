//! One connection after the other, over what change files make.

ghost use Rattle.std.specs.FinMap.{empty};
ghost use Rattle.std.specs.Prelude.{◌≡◌, ◌⊎◌, ◌++◌, ◌+◌, ◌<◌, ◌≤◌, ℕ, IfErr, IfSome, List, OnErr, OnOk, Some, length};
ghost use Rattle.osm_keys.specs.Publications.{Publication};
ghost use Rattle.osm_index.specs.Snapshots.{HoldsPublication};
ghost use Rattle.osm_serving.specs.ChangeFiles.{IsReachedBy};
ghost use Rattle.osm_desk.specs.Published.{TakesFound};

use crate::change_source::ChangeSource;
use crate::listener::Listener;
use crate::publish_next::publish_next;
use crate::root_line::RootLine;
use osm_commands::CommandFault;
use osm_desk::Desk;
use osm_index::Snapshot;
use std::alloc::Global;
use std::io::Write;

/// Serves this number of connections on the desk, one after the other, numbered from 0. Before it reads from a client
/// that has come, it asks the source once for the change file of the next sequence number, and publishes it: all
/// responses of the connection are over what is in force then. A file that is refused is told in one line of `errors`,
/// as `I2 w10` or `O9 line 1 byte 8`; what was in force stays, and the same file is asked for at the next connection. A
/// connection that ends badly is told in one line too (`G1` to `G4`), and the next is taken. The program serves by
/// [`osm_traffic::serve_many`], many connections at a time.
///
/// # Errors
///
/// `Device` or `Memory` where the listener has no further connection; fewer were taken then.
pub fn serve_desk<L: Listener, C: ChangeSource, E: Write>(
    alloc: Global,
    desk: &mut Desk<Snapshot>,
    source: &mut C,
    listener: &mut L,
    connections: u32,
    errors: &mut E,
) -> Result<(), CommandFault>
    requires { desk.old.connections ≡ empty }
    // So many connections were taken,
    ensures all { OnOk result (IfSome (L.accepted listener.old)
        (λ n. L.accepted listener.new ≡ Some (n + connections))) }
    // and fewer where the listener fails.
    ensures fewer { OnErr result (IfSome (L.accepted listener.old)
        (λ n. (k : ℕ) × (k < connections) × (L.accepted listener.new ≡ Some (n + k)))) }
    ensures outside { IfErr result (λ fault. (fault ≡ CommandFault.Memory)
        ⊎ (fault ≡ CommandFault.Device)) }
    // What is in force has been made of what was by one change file after the other, at most one a connection.
    ensures reached { (p : Publication) → HoldsPublication desk.old.mirror p
        → (q : Publication) × HoldsPublication desk.new.mirror q × IsReachedBy connections p q }
    // The source was asked at most once a connection.
    ensures asked { IfSome (C.asked source.old) (λ before. (more : List ℕ)
        × (C.asked source.new ≡ Some (more ++ before)) × (length more ≤ connections)) }
    // It has been made by the files that the source gave, one after the other, but those that were refused.
    ensures found { TakesFound (C.found source.old) (C.found source.new)
        (HoldsPublication desk.old.mirror) (HoldsPublication desk.new.mirror) }
    // No connection is open.
    ensures none_open { desk.new.connections ≡ empty }
{
    let mut taken = 0;
    while taken < connections {
        let (mut reader, mut writer) = listener.accept()?;
        // Now and not before the listener was waited at: so a file that came while it was is published in time.
        publish_next(alloc, desk, source, RootLine::Optional, errors);
        if let Err(fault) = desk.serve_on(taken, &mut reader, &mut writer) {
            // Where the line can't be written, the next connection is served all the same.
            let _ = writeln!(errors, "{fault}");
        }
        taken += 1;
        listener.close(reader, writer);
    }
    Ok(())
}
