//! Where a head says that the manifest stands.

ghost use Rattle.std.specs.Prelude.{◌≡◌};
ghost use Rattle.osm_pack_changes.specs.Heads.{manifest_place as place_in};

use node_pack::Place;
use pack_head::Head;

/// Where a head says that the manifest's record stands, in its files as one.
pub fn manifest_place(head: &Head<'_>) -> Place
    ensures { result ≡ place_in head.now }
{
    Place {
        at: head.manifest_at,
        len: head.manifest_len,
    }
}
