//! One connection after the other, over one snapshot.

ghost use Rattle.std.specs.Prelude.{◌≡◌, ◌⊎◌, ◌+◌, ◌<◌, ℕ, IfErr, IfSome, OnErr, OnOk, Some};

use crate::listener::Listener;
use osm_commands::CommandFault;
use osm_index::Snapshot;
use std::alloc::Global;
use std::io::Write;

/// Serves this number of connections, one after the other: each is answered over the snapshot by
/// [`osm_gate::serve`]. A connection that ends badly is told in one line of `errors` (`G1` to `G4`), and the next
/// is taken. The program serves by [`osm_traffic::serve_many`], many connections at a time.
///
/// # Errors
///
/// `Device` or `Memory` where the listener has no further connection; fewer were taken then.
pub fn serve<L: Listener, E: Write>(
    alloc: Global,
    snapshot: &Snapshot,
    listener: &mut L,
    connections: u32,
    errors: &mut E,
) -> Result<(), CommandFault>
    // So many connections were taken,
    ensures all { OnOk result (IfSome (L.accepted listener.old)
        (λ n. L.accepted listener.new ≡ Some (n + connections))) }
    // and fewer where the listener fails.
    ensures fewer { OnErr result (IfSome (L.accepted listener.old)
        (λ n. (k : ℕ) × (k < connections) × (L.accepted listener.new ≡ Some (n + k)))) }
    ensures outside { IfErr result (λ fault. (fault ≡ CommandFault.Memory)
        ⊎ (fault ≡ CommandFault.Device)) }
{
    let mut taken = 0;
    while taken < connections {
        let (mut reader, mut writer) = listener.accept()?;
        taken += 1;
        if let Err(fault) = osm_gate::serve(alloc, &mut reader, &mut writer, snapshot) {
            // Where the line can't be written, the next connection is served all the same.
            let _ = writeln!(errors, "{fault}");
        }
        listener.close(reader, writer);
    }
    Ok(())
}
