//! A publication in files, and changes that are added to them.

use bumpalo::Bump;
use node_pack::{PackSource, Place, write_pack};
use opl_codec::{Change, read_changes, read_set};
use osm_index::{Delta, Edition, Snapshot};
use outside_shelf::{OutsideShelf, Refused};
use pack_files::JoinedFiles;
use pack_update::{AddFault, Added, Readers, add_changes};
use std::alloc::{AllocError, Global};
use std::io::Write;
use std::test::Fail;
use tree_node::{Digest, Shelf, Stock};

/// Four objects.
pub(super) const SET: &str =
    "n1 v1 dV c5 t2020-01-02T03:04:05Z i7 uAnn Thighway=crossing x13.4 y52.5\n\
n2 x13.4000001 y52.5\n\
w10 Thighway=primary,name=A%20%B Nn1,n2,n1\n\
r100 Ttype=route Mw10@outer,n99@stop,r100@\n";

/// More bytes than a file of the tests has. What is written has room for so many from the first, since a vector that is out of memory
/// is a writer that fails.
const FILE_LIMIT: usize = 1_048_576;

/// The edition in which the tests begin.
pub(super) const SEVENTH: Edition = Edition::Two { sequence: 7 };

/// A publication, as a snapshot and in files.
#[derive(Drop)]
pub(super) struct Published {
    /// By this one it is known what is right: it is changed in memory.
    pub(super) snapshot: Snapshot,
    /// A pack, and further files.
    pub(super) files: Vec<Vec<u8>>,
    /// Where the manifest stands.
    pub(super) manifest: Place,
}

impl Published {
    /// The set of this text in a pack.
    pub(super) fn new(alloc: Global, set: &str, edition: Edition) -> Result<Published, Fail> {
        let set = read_set(alloc, &mut set.as_bytes())?;
        let snapshot = Snapshot::build(alloc, set, edition)?;
        let pack = pack_of(alloc, &snapshot)?;
        let manifest = manifest_in(pack.as_slice())?;
        let files = vec![in alloc; pack]?;
        Ok(Published {
            snapshot,
            files,
            manifest,
        })
    }

    /// The bytes of the pack.
    pub(super) fn pack(&self) -> &[u8] {
        match self.files.first() {
            Some(pack) => pack.as_slice(),
            None => &[],
        }
    }

    /// Adds changes to the files, and writes the new one.
    pub(super) fn write<W: Write>(
        &self,
        alloc: Global,
        changes: &[Change],
        writer: &mut W,
    ) -> Result<Added, AddFault> {
        let root = self.snapshot.root();
        add_to(
            alloc,
            self.files.as_slice(),
            root,
            self.manifest,
            changes,
            writer,
        )
    }

    /// Adds the changes of this text to the files, and makes the same of the snapshot. Whether the files then have what the snapshot
    /// has, and all is told as it is.
    pub(super) fn add(&mut self, alloc: Global, changes: &str) -> Result<bool, Fail> {
        let changes = changes_of(alloc, changes)?;
        let mut file = Vec::with_capacity(alloc, FILE_LIMIT)?;
        let added = self.write(alloc, changes.as_slice(), &mut file)?;
        let Delta {
            added: new,
            gone: _,
        } = self.snapshot.apply(alloc, changes.as_slice())?;
        let len = file_len(alloc, self.snapshot.stock(), new.as_slice())?;
        let is_told = added.manifest == *self.snapshot.manifest()
            && added.header.root == *self.snapshot.root()
            && added.header.size == file.len() as u64
            && added.header.manifest == manifest_in(file.as_slice())?;
        self.manifest = added.header.manifest;
        let is_as_long = file.len() == len;
        self.files.push(file)?;
        Ok(is_told && is_as_long && has_all(alloc, self)?)
    }
}

/// The pack of a snapshot.
pub(super) fn pack_of(alloc: Global, snapshot: &Snapshot) -> Result<Vec<u8>, Fail> {
    let mut pack = Vec::with_capacity(alloc, FILE_LIMIT)?;
    let mut shelf = snapshot.stock().shelf(alloc);
    write_pack(alloc, &mut shelf, snapshot.root(), &mut pack)?;
    Ok(pack)
}

/// The changes of this text.
pub(super) fn changes_of(alloc: Global, text: &str) -> Result<Vec<Change>, Fail> {
    Ok(read_changes(alloc, &mut text.as_bytes())?)
}

/// Files, read as one.
pub(super) fn joined(alloc: Global, files: &[Vec<u8>]) -> Result<JoinedFiles<&[u8]>, AllocError> {
    let mut contents = Vec::new(alloc);
    for file in files {
        contents.push(file.as_slice())?;
    }
    Ok(JoinedFiles::new(alloc, contents))
}

/// The same files for each step.
fn readers(alloc: Global, files: &[Vec<u8>]) -> Result<Readers<JoinedFiles<&[u8]>>, AllocError> {
    Ok(Readers {
        plan: joined(alloc, files)?,
        rebuild: joined(alloc, files)?,
        places: joined(alloc, files)?,
    })
}

/// Adds changes to files that have what is under this root.
pub(super) fn add_to<W: Write>(
    alloc: Global,
    files: &[Vec<u8>],
    root: &Digest,
    manifest: Place,
    changes: &[Change],
    writer: &mut W,
) -> Result<Added, AddFault> {
    let Ok(read) = readers(alloc, files) else {
        return Err(AddFault::Source(Refused::Memory));
    };
    let number = (files.len() % 1000) as u16;
    add_changes(alloc, read, number, root, manifest, changes, writer)
}

/// Where the header of a file says that the manifest's record stands.
pub(super) fn manifest_in(file: &[u8]) -> Result<Place, Fail> {
    let (_, rest) = file.split_first_chunk::<48>().ok_or("cut")?;
    let (at, rest) = rest.split_first_chunk().ok_or("cut")?;
    let (len, _) = rest.split_first_chunk().ok_or("cut")?;
    Ok(Place {
        at: u64::from_be_bytes(*at),
        len: u32::from_be_bytes(*len),
    })
}

/// How many bytes a further file with the nodes of a stock that have these digests has: those of its header, and for each node its
/// length, itself and the places of its children.
fn file_len(alloc: Global, stock: &Stock, keys: &[Digest]) -> Result<usize, Fail> {
    let mut shelf = stock.shelf(alloc);
    let mut len = 60_usize;
    for key in keys {
        let node = shelf.fetch(key)?;
        len = len
            .saturating_add(4)
            .saturating_add(node.len())
            .saturating_add(child_count(node).saturating_mul(12));
    }
    Ok(len)
}

/// How many children a node has: a manifest four, a leaf none, and an inner node as many as its third and fourth byte say.
fn child_count(node: &[u8]) -> usize {
    match node {
        [b'O', ..] => 4,
        [_, 0, ..] => 0,
        [_, _, high, low, ..] => usize::from(u16::from_be_bytes([*high, *low])),
        _ => 0,
    }
}

/// Whether files have each node of their snapshot: a pack that is copied from them is that of the snapshot.
pub(super) fn has_all(alloc: Global, published: &Published) -> Result<bool, Fail> {
    let snapshot = &published.snapshot;
    let wanted = pack_of(alloc, snapshot)?;
    let arena = Bump::new(alloc);
    let files = joined(alloc, published.files.as_slice())?;
    let source = PackSource::open_at(alloc, files, *snapshot.root(), published.manifest)?;
    let mut shelf = OutsideShelf::new(alloc, &arena, source, None);
    let mut copied = Vec::with_capacity(alloc, FILE_LIMIT)?;
    write_pack(alloc, &mut shelf, snapshot.root(), &mut copied)?;
    Ok(copied == wanted)
}
