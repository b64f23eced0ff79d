//! The law of files of a publication, over definitions alone. There is nothing to do when it runs.

ghost use Rattle.std.specs.List.{Contains};
ghost use Rattle.std.specs.Prelude.{◌≡◌, ◌↔◌, ℕ, List, [], ◌∷◌, Some};
ghost use Rattle.osm_keys.specs.Publications.{IsNodeIn, Publication, root_of};
ghost use Rattle.node_pack.specs.Packs.{IsPack, Kept, place_in};
ghost use Rattle.node_pack.specs.declared.place.Place.{Place};
ghost use Rattle.pack_update.specs.Files.{AreFilesOf};

use pack_files::first_law;

/// The law of the first file: a pack with just the nodes of a publication has them, and the manifest where its header says.
pub fn files_law()
    ensures { (p : Publication) (file : List ℕ) (nodes : List Kept) (manifest : Place)
        → IsPack file (root_of p) nodes
        → ((bytes : List ℕ)
        → ((kept : Kept) × Contains nodes kept × (kept.bytes ≡ bytes)) ↔ IsNodeIn p bytes)
        → place_in nodes (root_of p) ≡ Some manifest
        → AreFilesOf (file ∷ []) p manifest }
{
    first_law();
}
