//! A source of nodes over a pack.

ghost use Rattle.std.specs.Prelude.{◌≡◌, ◌<◌, ◌≤◌, ◌-◌, ◌^◌, ◌⊎◌, ◌++◌, ◌+◌, ◌↔◌, ℕ, Err, IfErr, IfOk, IfSome, IsSome, List, OnErr, OnOk, Option, Some, length, take};
ghost use Rattle.node_pack.specs.internal.Faults.{source_fault_of};
ghost use Rattle.node_pack.specs.Headers.{header_at};
ghost use Rattle.node_pack.specs.Packs.{IsPack, Kept, node_in, pack, place_in};
ghost use Rattle.node_pack.specs.Placed.{HasNodesAt};
ghost use Rattle.node_pack.specs.declared.header.Header.{Header};

use crate::ahead::Ahead;
use crate::fault::PackFault;
use crate::header::{HEADER_LEN, read_header};
use crate::learn::{FILE_LIMIT, first_places, learn};
use crate::place::Place;
use crate::read_at::{ReadAt, ReadFault};
use crate::record::{append_node, read_record};
use outside_shelf::{NodeSource, SourceFault};
use std::alloc::{AllocError, Global};
use std::collections::HashMap;
use tree_node::Digest;

/// Gives the nodes of a pack by their digests: first that of the root, and of each node that it gave the children. It keeps
/// their places, and reads a node whenever it is asked for it, in one read of its record.
///
/// Over a remote file it takes hints. When a node is next asked for, it goes down the trees for all hints at once, and says of
/// each level what it will read there, so that a round trip brings a level and not a node. This changes nothing that is given:
/// each node is read anew when it is asked for.
///
/// Nothing in the file is trusted. Whatever it has, a call ends, and takes no more memory than the file has bytes, or than
/// the node may have that was asked for. For the hints before a call it keeps at most 1 MiB, reads at most 64 MiB of nodes
/// that aren't leaves, and expects at most some 65,600 records a level; how many of the bytes that it expects are brought is
/// the device's affair.
#[derive(Drop)]
pub struct PackSource<F: ReadAt + Drop> {
    pub(crate) file: F,
    root: Digest,
    /// Where the record of the node with the root stands, by the header or by who opened the source.
    manifest: Place,
    pub(crate) size: u64,
    /// Places from here on aren't known.
    limit: u64,
    pub(crate) places: HashMap<Digest, Place>,
    pub(crate) buffer: Vec<u8>,
    children: Vec<Digest>,
    pub(crate) ahead: Ahead,
}

impl<F: ReadAt + Drop> PackSource<F> {
    ghost use Rattle.node_pack.specs.Sources.{GivesKept, IsOpenFault, IsOver, Knows, last_record, place_known, places_known, root_in};
    ghost use Rattle.node_pack.specs.internal.Reading.{IsBrought};

    /// Reads the header of a pack. What the source needs later comes from `alloc` too.
    pub fn open(alloc: Global, mut file: F) -> Result<PackSource<F>, PackFault>
        // Of a pack it knows where the node with the root is.
        ensures over { (root : List ℕ) (nodes : List Kept) → F.reads file (pack root nodes)
            → IsPack (pack root nodes) root nodes
            → IfOk result (λ source. IsOver F.reads (place_in nodes) source root nodes
            × Knows source root) }
        // The header is that of the file, which has as many bytes as it states,
        ensures header { (bytes : List ℕ) → F.reads file bytes
            → IfOk result (λ source. (header : Header)
            × (header_at (take 60 bytes) (length bytes) ≡ Ok header)
            × (root_in source ≡ header.root)) }
        // or the first thing that is at fault is told, unless the device fails or memory is refused.
        ensures refused { (bytes : List ℕ) → F.reads file bytes → IfErr result (IsOpenFault bytes) }
    {
        let size = file.size()?;
        let mut buffer = Vec::new(alloc);
        file.read_at(0, size.min(HEADER_LEN as u64) as usize, &mut buffer)?;
        let header = read_header(buffer.as_slice(), size)?;
        let places = first_places(alloc, header.root, header.manifest, FILE_LIMIT)?;
        Ok(PackSource {
            file,
            root: header.root,
            manifest: header.manifest,
            size,
            limit: FILE_LIMIT,
            places,
            buffer,
            children: Vec::new(alloc),
            ahead: Ahead::new(alloc),
        })
    }

    /// Goes on from the place of the node with a root, in files that are read as one: each begins at the offset of its number
    /// times 2^48, so that what stands in any of them has a place. Nothing is read but how many bytes there are.
    pub fn open_at(
        alloc: Global,
        mut file: F,
        root: Digest,
        manifest: Place,
    ) -> Result<PackSource<F>, PackFault>
        // Where these bytes have nodes at places it knows where the node with the root is.
        ensures over { (bytes : List ℕ) (place_of : List ℕ → Option Place) (nodes : List Kept)
            → F.reads file bytes → HasNodesAt bytes (2 ^ 64 - 1) place_of nodes
            → place_of root.0 ≡ Some manifest → manifest.at < 2 ^ 64 - 1
            → IfOk result (λ source. IsOver F.reads place_of source root.0 nodes
            × Knows source root.0) }
        ensures root { IfOk result (λ source. root_in source ≡ root) }
        // Refused where the device fails or memory is.
        ensures refused { IfErr result (λ fault. (fault ≡ PackFault.Device)
            ⊎ (fault ≡ PackFault.Memory)) }
    {
        let size = file.size()?;
        let places = first_places(alloc, root, manifest, u64::MAX)?;
        Ok(PackSource {
            file,
            root,
            manifest,
            size,
            limit: u64::MAX,
            places,
            buffer: Vec::new(alloc),
            children: Vec::new(alloc),
            ahead: Ahead::new(alloc),
        })
    }

    /// The root that the header states, or whoever opened the source.
    pub fn root(&self) -> Digest
        ensures { result ≡ root_in self.now }
    {
        self.root
    }

    /// Where the record of the node with a digest stands, if it knows.
    pub fn place(&self, key: &Digest) -> Option<Place>
        ensures value { result ≡ place_known self.now key.now.0 }
        ensures known { IsSome result ↔ Knows self.now key.now.0 }
        ensures true_place { (place_of : List ℕ → Option Place) (root : List ℕ) (nodes : List Kept)
            → IsOver F.reads place_of self.now root nodes
            → IfSome result (λ place. place_of key.now.0 ≡ Some place) }
    {
        let place = self.places.get(key)?;
        Some(*place)
    }

    /// How many places it knows. Each takes some fifty bytes.
    pub fn places_len(&self) -> usize
        ensures { result ≡ places_known self.now }
    {
        self.places.len()
    }

    /// Forgets the places of all nodes but that with the root, so that a source that is kept for long doesn't grow for ever.
    /// They are learned again where nodes are read from the root down. What it learns then takes its memory from `alloc`.
    ///
    /// Hints that were heard stay. So does what a remote file was told to expect, eight bytes a record, since it may still
    /// have it. Refused only where memory is, and then nothing is forgotten.
    pub fn forget(&mut self, alloc: Global) -> Result<(), AllocError>
        ensures root { root_in self.new ≡ root_in self.old }
        // It goes on reading from the same pack.
        ensures over { (place_of : List ℕ → Option Place) (root : List ℕ) (nodes : List Kept)
            → IsOver F.reads place_of self.old root nodes
            → IsOver F.reads place_of self.new root nodes }
        // It knows no other place than the root's, and over a pack it does know that one.
        ensures only { OnOk result
            ((key : List ℕ) → Knows self.new key → key ≡ (root_in self.new).0) }
        ensures few { OnOk result (places_known self.new ≤ 1) }
        ensures knows { (place_of : List ℕ → Option Place) (root : List ℕ) (nodes : List Kept)
            → IsOver F.reads place_of self.old root nodes
            → OnOk result (Knows self.new root) }
        ensures unchanged { OnErr result
            ((key : List ℕ) → Knows self.new key ↔ Knows self.old key) }
        ensures as_many { OnErr result (places_known self.new ≡ places_known self.old) }
    {
        let places = first_places(alloc, self.root, self.manifest, self.limit)?;
        self.places = places;
        Ok(())
    }

    /// Appends the node whose record stands at this place, and remembers where its children stand.
    fn give(&mut self, place: Place, at_most: usize, into: &mut Vec<u8>) -> Result<(), ReadFault>
        ensures appended { OnOk result
            (into.new.items
            ≡ into.old.items ++ take (at_most + 1) (node_in (last_record self.new))) }
        ensures unchanged { OnErr result (into.new.items ≡ into.old.items) }
        ensures root { root_in self.new ≡ root_in self.old }
        ensures keeps { (key : List ℕ) → Knows self.old key → Knows self.new key }
        ensures over { (place_of : List ℕ → Option Place) (root key : List ℕ)
            (nodes : List Kept) → IsOver F.reads place_of self.old root nodes
            → place_of key ≡ Some place → IsOver F.reads place_of self.new root nodes }
        ensures given { (place_of : List ℕ → Option Place) (root key : List ℕ)
            (nodes : List Kept) → IsOver F.reads place_of self.old root nodes
            → place_of key ≡ Some place
            → OnOk result
            (GivesKept nodes key at_most into.old.items into.new.items (Knows self.new)) }
    {
        self.bring(place, at_most)?;
        append_node(self.buffer.as_slice(), at_most, into)
    }

    /// Reads the record at this place, as far as it can be that of a node of at most so many bytes, and remembers where the
    /// children of such a node stand.
    pub(crate) fn bring(&mut self, place: Place, at_most: usize) -> Result<(), ReadFault>
        ensures announced { self.new.ahead.announced ≡ self.old.ahead.announced }
        ensures root { root_in self.new ≡ root_in self.old }
        ensures keeps { (key : List ℕ) → Knows self.old key → Knows self.new key }
        ensures over { (place_of : List ℕ → Option Place) (root key : List ℕ)
            (nodes : List Kept) → IsOver F.reads place_of self.old root nodes
            → place_of key ≡ Some place → IsOver F.reads place_of self.new root nodes }
        ensures brought { (place_of : List ℕ → Option Place) (root key : List ℕ)
            (nodes : List Kept) → IsOver F.reads place_of self.old root nodes
            → place_of key ≡ Some place
            → OnOk result (IsBrought nodes key at_most (last_record self.new) (Knows self.new)) }
    {
        read_record(&mut self.file, self.size, place, at_most, &mut self.buffer)?;
        learn(
            self.buffer.as_slice(),
            at_most,
            self.limit,
            &mut self.children,
            &mut self.places,
        )
    }
}

/// What a refused read is to who asks for a node.
fn source_fault(fault: ReadFault) -> SourceFault
    ensures { result ≡ source_fault_of fault }
{
    match fault {
        ReadFault::Device => SourceFault::Device,
        ReadFault::Memory => SourceFault::Memory,
    }
}

impl<F: ReadAt + Drop> NodeSource for PackSource<F> {
    ghost use Rattle.node_pack.specs.Sources.{GivesKept, IsOver, Knows, last_record, root_in};
    ghost use Rattle.outside_shelf.specs.declared.source.SourceFault.TheVariants.{Absent};

    /// Of a node that is longer than `at_most` bytes it appends one byte more. The children of a node that isn't longer are
    /// known from then on.
    ///
    /// Refused with `Absent` where it doesn't know the place of the node, with `Device` where the device fails or the file ends
    /// before the record does, and where memory is refused.
    fn read_node(
        &mut self,
        key: &Digest,
        at_most: usize,
        into: &mut Vec<u8>,
    ) -> Result<(), SourceFault>
        // What is given is the node of the record that was read.
        ensures appended { OnOk result
            (into.new.items
            ≡ into.old.items ++ take (at_most + 1) (node_in (last_record self.new))) }
        ensures unchanged { OnErr result (into.new.items ≡ into.old.items) }
        ensures root { root_in self.new ≡ root_in self.old }
        // Only the node whose place it doesn't know is absent,
        ensures absent { (result ≡ Err Absent) ↔ (¬ Knows self.old key.now.0) }
        // and it forgets no place.
        ensures keeps { (key : List ℕ) → Knows self.old key → Knows self.new key }
        // Over a pack it gives the node with the digest, and knows its children from then on.
        ensures over { (place_of : List ℕ → Option Place) (root : List ℕ) (nodes : List Kept)
            → IsOver F.reads place_of self.old root nodes
            → IsOver F.reads place_of self.new root nodes }
        ensures given { (place_of : List ℕ → Option Place) (root : List ℕ) (nodes : List Kept)
            → IsOver F.reads place_of self.old root nodes
            → OnOk result
            (GivesKept nodes key.now.0 at_most into.old.items into.new.items (Knows self.new)) }
    {
        let Some(place) = self.places.get(key) else {
            return Err(SourceFault::Absent);
        };
        let place = *place;
        self.bring_announced();
        match self.give(place, at_most, into) {
            Ok(()) => Ok(()),
            Err(fault) => Err(source_fault(fault)),
        }
    }

    /// It is kept where the file is remote, and dropped where there is no room or no memory for it.
    fn announce(&mut self, top: &Digest, lo: &[u8], hi: &[u8])
        ensures root { root_in self.new ≡ root_in self.old }
        ensures keeps { (key : List ℕ) → Knows self.old key → Knows self.new key }
        ensures over { (place_of : List ℕ → Option Place) (root : List ℕ) (nodes : List Kept)
            → IsOver F.reads place_of self.old root nodes
            → IsOver F.reads place_of self.new root nodes }
    {
        if self.file.is_remote() {
            self.ahead.hear(top, lo, hi);
        }
    }
}
