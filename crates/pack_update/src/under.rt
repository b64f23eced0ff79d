//! The manifest under a root, and what a shelf's refusals are.

ghost use Rattle.std.specs.Prelude.{◌≡◌, IfErr, IfOk};
ghost use Rattle.osm_keys.specs.Manifests.{HasSequence, manifest_bytes};
ghost use Rattle.outside_shelf.specs.Shelves.{HasBrought};
ghost use Rattle.pack_update.specs.internal.Updating.{IsReadUnder, IsUnread, not_given as not_given_of};

use crate::fault::AddFault;
use osm_keys::{Edition, Manifest, read_manifest};
use outside_shelf::{NodeSource, OutsideShelf, Refused};
use tree_node::{Digest, Shelf};

/// The manifest with this root. A source over files knows where the tops stand from then on.
///
/// Refused with `Source` where the node isn't given, and with `NoManifest` where it is no manifest.
pub(crate) fn fetch_manifest<'a, N: NodeSource + Drop>(
    shelf: &mut OutsideShelf<'a, N>,
    root: &Digest,
) -> Result<Manifest, AddFault>
    ensures read { IfOk result (λ manifest. IsReadUnder root.now.0 manifest
        × HasBrought shelf.new (manifest_bytes manifest)) }
    ensures unread { IfErr result (IsUnread root.now.0) }
{
    let Ok(bytes) = shelf.fetch(root) else {
        return Err(not_given(shelf.refused()));
    };
    match read_manifest(bytes) {
        Some(manifest) => {
            sequence_fits(manifest.edition);
            Ok(manifest)
        }
        None => Err(AddFault::NoManifest),
    }
}

/// What is told where a node wasn't given, by the reason that the shelf keeps.
pub(crate) fn not_given(reason: Option<Refused>) -> AddFault
    ensures { result ≡ not_given_of reason }
{
    AddFault::Source(reason.unwrap_or(Refused::Absent))
}

/// A sequence number fits its eight bytes. There is nothing to do when it runs.
fn sequence_fits(edition: Edition)
    ensures { HasSequence edition }
{
    match edition {
        Edition::One | Edition::Two { .. } => {}
    }
}
