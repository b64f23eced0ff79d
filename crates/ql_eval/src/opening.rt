//! The manifest, from which the evaluation of a query starts.

ghost use Rattle.std.specs.Prelude.{◌≡◌, ◌⊎◌, ℕ, Err, IfErr, IfOk, List, OnErr, true};
ghost use Rattle.osm_keys.specs.Manifests.{manifest_bytes};
ghost use Rattle.osm_keys.specs.Publications.{Publication, manifest_of, root_of};
ghost use Rattle.tree_node.specs.Outcomes.{Outcome};
ghost use Rattle.tree_node.specs.Shelves.{GrownBy, HasNone, Stays};
ghost use Rattle.tree_walk.specs.Uses.{nodes_around};
ghost use Rattle.ql_eval.specs.Openings.{HasMalformed, IsHeldUnder, IsUnder, cause_of_manifest};

use osm_keys::{Manifest, read_manifest};
use thiserror::Error;
use tree_node::{Digest, Shelf, ShelfFault};

/// Why the manifest under a root couldn't be read (E4).
#[derive(Clone, Copy, Debug, PartialEq, Eq, Error)]
pub enum ManifestFault {
    /// The shelf holds no bytes with the root as their digest.
    #[error("manifest missing")]
    Missing,
    /// What the shelf gave isn't of the form of a manifest.
    #[error("manifest malformed")]
    Malformed,
    /// Memory on the shelf was refused.
    #[error("no memory")]
    Memory,
}

impl From<ShelfFault> for ManifestFault {
    ghost use Rattle.std.specs.Prelude.{◌≡◌};
    ghost use Rattle.ql_eval.specs.Openings.{manifest_fault_of};

    ghost from_gives = { λ shelf fault. fault ≡ manifest_fault_of shelf };

    fn from(fault: ShelfFault) -> ManifestFault {
        match fault {
            ShelfFault::Missing => ManifestFault::Missing,
            ShelfFault::Memory => ManifestFault::Memory,
        }
    }
}

/// Fetches and reads the manifest whose digest is this root (this project's manifests, docs/FORMATS.md).
///
/// Refused with `Missing` exactly where the shelf holds nothing with that digest, with `Malformed` where it
/// holds something else than a manifest, and out of memory only on a shelf that takes memory. It fetches one
/// node and takes no memory of its own.
pub fn open_manifest<'a, S: Shelf<'a>>(
    root: &Digest,
    shelf: &mut S,
) -> Result<Manifest, ManifestFault>
    // What is held stays held, on a fixed shelf just that, and what was used stays used.
    ensures stays { Stays S.is_fixed (S.holds shelf.old) (S.holds shelf.new) }
    ensures grows { (bytes : List ℕ) → S.used shelf.old bytes → S.used shelf.new bytes }
    // What it gives is held under the root, and the used nodes grow by just its bytes.
    ensures held { IfOk result (IsHeldUnder (S.holds shelf.new) root.now.0) }
    ensures grown { IfOk result
        (λ found. GrownBy (S.used shelf.old) (S.used shelf.new) (manifest_bytes found)) }
    // Each refusal says what the shelf holds, or that it takes memory.
    ensures missing { result ≡ Err ManifestFault.Missing → HasNone (S.holds shelf.new) root.now.0 }
    ensures none { S.is_fixed ≡ true → HasNone (S.holds shelf.new) root.now.0
        → result ≡ Err ManifestFault.Missing }
    ensures malformed { result ≡ Err ManifestFault.Malformed
        → HasMalformed (S.holds shelf.new) root.now.0 }
    ensures other { HasMalformed (S.holds shelf.new) root.now.0
        → (result ≡ Err ManifestFault.Malformed) ⊎ (result ≡ Err ManifestFault.Memory) }
    ensures memory { result ≡ Err ManifestFault.Memory → S.takes_memory ≡ true }
    // Under the root of a publication: its tops, by its manifest alone.
    ensures answer { (p : Publication) → root.now.0 ≡ root_of p
        → Outcome cause_of_manifest (λ found. IsUnder p found) (λ bytes. bytes ≡ manifest_of p)
        (nodes_around S.holds S.used shelf.old shelf.new) result }
{
    let bytes = shelf.fetch(root)?;
    match read_manifest(bytes) {
        Some(found) => Ok(found),
        None => Err(ManifestFault::Malformed),
    }
}
