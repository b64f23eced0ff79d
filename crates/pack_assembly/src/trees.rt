//! What is known of trees before their pack is written.

ghost use Rattle.std.specs.Prelude.{◌≡◌, IfOk};
ghost use Rattle.osm_keys.specs.Manifests.{manifest, top_among};
ghost use Rattle.pack_assembly.specs.Levels.{height_among};

use osm_keys::{Edition, Manifest, write_manifest};
use std::alloc::{AllocError, Global};
use tree_node::{Digest, Tree};

/// What is known of a publication's trees before its pack is written.
#[derive(Clone, Copy, Debug)]
pub struct BuiltTrees {
    /// The edition.
    pub edition: Edition,
    /// The digests of the tops of the object, tag, cell and back tree.
    pub tops: [Digest; 4],
    /// How many levels each of these trees has: at least one.
    pub heights: [u8; 4],
}

impl BuiltTrees {
    /// The digest of the top of a tree.
    pub(crate) fn top(&self, tree: Tree) -> Digest
        ensures { result.0 ≡ top_among self.now.tops tree }
    {
        match tree {
            Tree::Objects => self.tops[0],
            Tree::Tags => self.tops[1],
            Tree::Cells => self.tops[2],
            Tree::Backs => self.tops[3],
        }
    }

    /// How many levels a tree has.
    pub(crate) fn height(&self, tree: Tree) -> u8
        ensures { result ≡ height_among self.now.heights tree }
    {
        match tree {
            Tree::Objects => self.heights[0],
            Tree::Tags => self.heights[1],
            Tree::Cells => self.heights[2],
            Tree::Backs => self.heights[3],
        }
    }

    /// The bytes of the manifest.
    pub(crate) fn manifest(&self, alloc: Global) -> Result<Vec<u8>, AllocError>
        ensures { IfOk result
            (λ bytes. bytes.items ≡ manifest self.now.edition (top_among self.now.tops)) }
    {
        let mut bytes = Vec::new(alloc);
        let manifest = Manifest {
            edition: self.edition,
            tops: self.tops,
        };
        write_manifest(&manifest, &mut bytes)?;
        Ok(bytes)
    }
}
