//! A pack file as a mirror.

ghost use Rattle.std.specs.Prelude.{◌≡◌, ◌⊎◌, IfErr, IfOk, List, Ok, length, take, ℕ};
ghost use Rattle.osm_keys.specs.Publications.{IsPublication, Publication, root_of};
ghost use Rattle.ql_eval.specs.Work.{IsNodeOf};
ghost use Rattle.outside_shelf.specs.SecondPreimages.{HaveSecondPreimage};
ghost use Rattle.node_pack.specs.Headers.{header_at};
ghost use Rattle.node_pack.specs.Packs.{IsPack, Kept, pack};
ghost use Rattle.node_pack.specs.Sources.{IsOpenFault};
ghost use Rattle.node_pack.specs.declared.header.Header.{Header};
ghost use Rattle.pack_mirror.specs.Roots.{StandsFor};

use crate::answering::{answer_from_nodes, prove_from_nodes};
use crate::kept::KeptNodes;
use node_pack::{PackFault, PackSource, Place, ReadAt};
use osm_gate::{Mirror, MirrorFault};
use osm_prove::{Answered, Proved};
use std::alloc::Global;
use std::marker::Model;
use tree_node::Digest;

/// How many bytes a mirror keeps from query to query at most, 64 MiB.
pub const STOCK_LIMIT: u64 = 67_108_864;

/// A pack file that queries are asked of, or the files that a head names. Contracts see it as the root that the header stated
/// when it was opened, or that of the head: what the file gives may change at any time, and nothing of it is trusted.
///
/// The file stays open, and its header is read once. A query reads the nodes that it needs, each of them once, and digests
/// them. They are kept for later queries, as are the places in the file that were learned of them; so a query that needs only
/// such nodes reads nothing, and digests nothing. Where nodes and places would be more than a limit (of bytes, each node and
/// each place with 100 bytes beside its own), all of them are dropped at once, and are read anew as they are needed. Memory is
/// that limit at most, and beside it that of the nodes that a query reads and of what is given.
///
/// Only nodes are kept that have the digest that was asked. So a file that was replaced, cut or damaged meanwhile is a failed
/// device to each query that reads what is gone; one that needs only what is kept is answered as before. After a failed device
/// all that was kept is dropped too, so the next query reads anew, and is answered once the file is well.
#[derive(Drop)]
pub struct PackMirror<F: ReadAt + Drop> {
    nodes: KeptNodes<F>,
    root: Digest,
}

impl<F: ReadAt + Drop> Model for PackMirror<F> {
    ghost use Rattle.tree_node.specs.declared.digest.Digest.{Digest};

    ghost Value = { Digest };

    ghost view = { λ mirror. mirror.root };
}

impl<F: ReadAt + Drop> PackMirror<F> {
    /// Reads the header of a pack, of which [`STOCK_LIMIT`] bytes are kept at most. No node is read yet.
    ///
    /// # Errors
    ///
    /// The first thing that is at fault with the header, as [`node_pack::PackSource::open`] tells it; `Device` where the file
    /// isn't read, and `Memory` where an allocation is refused.
    pub fn open(alloc: Global, file: F) -> Result<PackMirror<F>, PackFault>
        // Of a pack of a publication, it stands for that publication, unless a node of it has a second preimage.
        ensures stands { (p : Publication) (nodes : List Kept)
            → F.reads file (pack (root_of p) nodes)
            → IsPack (pack (root_of p) nodes) (root_of p) nodes
            → IsPublication p → ¬ HaveSecondPreimage (IsNodeOf p)
            → IfOk result (λ mirror. StandsFor mirror p) }
        // The root is that of the file's header, and the file has as many bytes as the header states,
        ensures header { (bytes : List ℕ) → F.reads file bytes
            → IfOk result (λ mirror. (header : Header)
            × (header_at (take 60 bytes) (length bytes) ≡ Ok header) × (mirror ≡ header.root)) }
        // or the first thing that is at fault is told, unless the device fails or memory is refused.
        ensures refused { (bytes : List ℕ) → F.reads file bytes → IfErr result (IsOpenFault bytes) }
    {
        PackMirror::open_with_limit(alloc, file, STOCK_LIMIT)
    }

    /// Reads the header of a pack, of which at most so many bytes are kept from query to query. With 0 nothing is kept. No node
    /// is read yet.
    ///
    /// # Errors
    ///
    /// As of [`PackMirror::open`].
    pub fn open_with_limit(alloc: Global, file: F, limit: u64) -> Result<PackMirror<F>, PackFault>
        // Of a pack of a publication, it stands for that publication, unless a node of it has a second preimage.
        ensures stands { (p : Publication) (nodes : List Kept)
            → F.reads file (pack (root_of p) nodes)
            → IsPack (pack (root_of p) nodes) (root_of p) nodes
            → IsPublication p → ¬ HaveSecondPreimage (IsNodeOf p)
            → IfOk result (λ mirror. StandsFor mirror p) }
        // The root is that of the file's header, and the file has as many bytes as the header states,
        ensures header { (bytes : List ℕ) → F.reads file bytes
            → IfOk result (λ mirror. (header : Header)
            × (header_at (take 60 bytes) (length bytes) ≡ Ok header) × (mirror ≡ header.root)) }
        // or the first thing that is at fault is told, unless the device fails or memory is refused.
        ensures refused { (bytes : List ℕ) → F.reads file bytes → IfErr result (IsOpenFault bytes) }
    {
        let source = PackSource::open(alloc, file)?;
        let root = source.root();
        Ok(PackMirror::over(alloc, source, root, limit))
    }

    /// Goes on from the place of a manifest in files that are read as one, as a head names them; [`STOCK_LIMIT`] bytes of them
    /// are kept at most. No node is read yet, so where the files are of another root each query finds the device failed.
    ///
    /// # Errors
    ///
    /// `Device` where the files can't be opened, and `Memory` where an allocation is refused.
    pub fn open_at(
        alloc: Global,
        files: F,
        root: Digest,
        manifest: Place,
    ) -> Result<PackMirror<F>, PackFault>
        // Under the root of a publication it stands for that publication, whatever the files hold, unless a node of it has a
        // second preimage.
        ensures stands { (p : Publication) → root.0 ≡ root_of p → IsPublication p
            → ¬ HaveSecondPreimage (IsNodeOf p) → IfOk result (λ mirror. StandsFor mirror p) }
        ensures root { IfOk result (λ mirror. mirror ≡ root) }
        ensures refused { IfErr result (λ fault. (fault ≡ PackFault.Device)
            ⊎ (fault ≡ PackFault.Memory)) }
    {
        let source = PackSource::open_at(alloc, files, root, manifest)?;
        Ok(PackMirror::over(alloc, source, root, STOCK_LIMIT))
    }

    /// The mirror of this root, over the nodes of a source.
    fn over(alloc: Global, source: PackSource<F>, root: Digest, limit: u64) -> PackMirror<F>
        ensures { result ≡ root }
    {
        PackMirror {
            nodes: KeptNodes::new(alloc, source, limit),
            root,
        }
    }

    /// The root that the header stated when the pack was opened, or whoever opened the files.
    pub fn root(&self) -> &Digest
        ensures { result.now ≡ self.now }
    {
        &self.root
    }
}

impl<F: ReadAt + Drop> Mirror for PackMirror<F> {
    ghost use Rattle.std.specs.Prelude.{true};
    ghost use Rattle.pack_mirror.specs.Roots.{StandsFor};

    ghost holds = { λ mirror p. StandsFor mirror p };

    ghost may_fail = { true };

    fn root(&self) -> &Digest {
        self.root()
    }

    fn answer_within(
        &mut self,
        alloc: Global,
        query: &[u8],
        most: Option<u64>,
    ) -> Result<Answered, MirrorFault> {
        answer_from_nodes(alloc, &mut self.nodes, &self.root, query, most)
    }

    fn prove_within(
        &mut self,
        alloc: Global,
        query: &[u8],
        most: Option<u64>,
    ) -> Result<Proved, MirrorFault> {
        prove_from_nodes(alloc, &mut self.nodes, &self.root, query, most)
    }
}
