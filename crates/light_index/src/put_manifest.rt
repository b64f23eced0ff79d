//! Putting the manifest into a stock.

ghost use Rattle.std.specs.Prelude.{◌≡◌, ◌≢◌, ℕ, Err, IfOk, List, OnOk};
ghost use Rattle.tree_node.specs.Digests.{digest as digest_word};
ghost use Rattle.tree_node.specs.Shelves.{GrownBy};
ghost use Rattle.tree_node.specs.Stocks.{HasNode};
ghost use Rattle.light_keys.specs.LightManifests.{light_manifest_bytes};

use crate::put_lines::fault_of;
use light_keys::{LightManifest, append_light_manifest};
use osm_index::IndexFault;
use std::alloc::Global;
use tree_node::{Digest, Stock};

/// Puts the bytes of a manifest into the stock, and gives their digest. Refused with `Clash` only where another node of
/// the stock has that digest, and else only with `Memory`.
pub(crate) fn put_manifest(
    alloc: Global,
    manifest: &LightManifest,
    stock: &mut Stock,
) -> Result<Digest, IndexFault>
    ensures key { IfOk result (λ key. key.0 ≡ digest_word (light_manifest_bytes manifest.now)) }
    ensures added { OnOk result
        (GrownBy (HasNode stock.old) (HasNode stock.new) (light_manifest_bytes manifest.now)) }
    ensures clash { result ≡ Err IndexFault.Clash
        → (x : List ℕ) × HasNode stock.old x × (x ≢ light_manifest_bytes manifest.now)
        × (digest_word x ≡ digest_word (light_manifest_bytes manifest.now)) }
    ensures few { result ≢ Err IndexFault.TooMany }
{
    let mut bytes = Vec::new(alloc);
    append_light_manifest(manifest, &mut bytes)?;
    match stock.put(bytes) {
        Ok(key) => Ok(key),
        Err(fault) => Err(fault_of(fault)),
    }
}
