//! What a server says when it begins.

ghost use Rattle.std.specs.Prelude.{◌≡◌, IfOk, length, string_bytes};
ghost use Rattle.osm_keys.specs.Publications.{Publication, root_of};
ghost use Rattle.osm_index.specs.Snapshots.{HoldsPublication};
ghost use Rattle.osm_commands.specs.ListeningLines.{listening_text, pack_listening_text};

use osm_check::Digest;
use osm_index::Snapshot;
use std::alloc::{AllocError, Global};
use std::net::SocketAddr;

/// Where the server listens, over how many objects, and their root, in one line that ends with LF.
pub fn listening_line(
    alloc: Global,
    address: SocketAddr,
    snapshot: &Snapshot,
) -> Result<String, AllocError>
    ensures { (p : Publication) → HoldsPublication snapshot.now p
        → IfOk result (λ line. string_bytes line ≡ listening_text address (length p.objects)
        (root_of p)) }
{
    let count = snapshot.object_count(alloc)?;
    line_over(alloc, address, count, snapshot.root())
}

/// Where the server listens, and the root of the pack that it serves, in one line that ends with LF.
pub fn pack_listening_line(
    alloc: Global,
    address: SocketAddr,
    root: &Digest,
) -> Result<String, AllocError>
    ensures { IfOk result (λ line. string_bytes line ≡ pack_listening_text address root.now.0) }
{
    let root = hex::encode(alloc, root.0)?;
    format!(in alloc; "osm_mirror listens on {address}, over a pack, root {root}\n")
}

/// The line over this number of objects with this root.
fn line_over(
    alloc: Global,
    address: SocketAddr,
    count: u64,
    root: &Digest,
) -> Result<String, AllocError>
    ensures { IfOk result (λ line. string_bytes line ≡ listening_text address count root.now.0) }
{
    let root = hex::encode(alloc, root.0)?;
    format!(in alloc; "osm_mirror listens on {address}, over {count} objects, root {root}\n")
}
