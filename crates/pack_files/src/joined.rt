//! Several files, read as one.

ghost use Rattle.std.specs.Prelude.{◌≡◌, ◌≤◌, ◌+◌, ◌++◌, ℕ, List, OnOk, drop, length, take};

use node_pack::{FILE_LIMIT, Place, ReadAt, ReadFault};
use std::alloc::{AllocError, Global};

/// Several files as one, in which each begins at the offset of its number times 2^48. Between the end of a file and the beginning
/// of the next one there is nothing to read. Offsets fit 64 bits for 65,535 files; those after them can't be read.
#[derive(Drop)]
pub struct JoinedFiles<F: ReadAt + Drop> {
    alloc: Global,
    pub(crate) files: Vec<F>,
}

impl<F: ReadAt + Drop> JoinedFiles<F> {
    ghost use Rattle.pack_files.specs.Files.{files_in};
    ghost use Rattle.pack_files.specs.Joined.{AreRead};

    /// These files, by their numbers. What a hint takes until it is told comes from `alloc`.
    pub fn new(alloc: Global, files: Vec<F>) -> JoinedFiles<F>
        ensures { files_in result ≡ files.items }
    {
        JoinedFiles { alloc, files }
    }

    /// Tells a file which of its records will be read, at these places in all files together.
    fn tell(&mut self, number: u64, places: &[Place])
        ensures { (contents : List (List ℕ)) → AreRead F.reads (files_in self.old) contents
            → AreRead F.reads (files_in self.new) contents }
    {
        let Ok(own) = own_places(self.alloc, places) else {
            return;
        };
        if let Some(file) = self.files.get_mut(number as usize) {
            file.expect(own.as_slice());
        }
    }
}

impl<F: ReadAt + Drop> ReadAt for JoinedFiles<F> {
    ghost use Rattle.pack_files.specs.Files.{files_in};
    ghost use Rattle.pack_files.specs.Joined.{AreRead, joined};

    /// Where each file tells its bytes: these, each at its offset.
    ghost reads = { λ files bytes. (contents : List (List ℕ))
        × AreRead F.reads (files_in files) contents
        × (bytes ≡ joined contents) };

    /// The offset that one more file would have.
    fn size(&mut self) -> Result<u64, ReadFault> {
        Ok((self.files.len() as u64).saturating_mul(FILE_LIMIT))
    }

    /// It fails where the file at the offset ends before.
    fn read_at(&mut self, offset: u64, len: usize, into: &mut Vec<u8>) -> Result<(), ReadFault> {
        match self.files.get_mut((offset / FILE_LIMIT) as usize) {
            Some(file) => read_within(file, offset % FILE_LIMIT, len, into),
            None => Err(ReadFault::Device),
        }
    }

    /// Where the first file is.
    fn is_remote(&self) -> bool {
        match self.files.first() {
            Some(file) => file.is_remote(),
            None => false,
        }
    }

    /// Each file is told of the records in it. Where there is no memory to say so, it isn't.
    fn expect(&mut self, places: &[Place]) {
        let mut rest = places;
        for _ in 0..places.len() {
            let Some(first) = rest.first() else {
                return;
            };
            let number = first.at / FILE_LIMIT;
            let (own, others) = rest.split_at(count_in(rest, number));
            self.tell(number, own);
            rest = others;
        }
    }
}

/// Appends this many bytes of a file from the offset on, if it has them: else nothing is asked of it.
fn read_within<F: ReadAt>(
    file: &mut F,
    offset: u64,
    len: usize,
    into: &mut Vec<u8>,
) -> Result<(), ReadFault>
    ensures read { (bytes : List ℕ) → F.reads file.old bytes → OnOk result
        ((into.new.items ≡ into.old.items ++ take len (drop offset bytes))
        × (offset + len ≤ length bytes)) }
    ensures stays { (bytes : List ℕ) → F.reads file.old bytes → F.reads file.new bytes }
{
    let size = file.size()?;
    if offset > size || len as u64 > size - offset {
        return Err(ReadFault::Device);
    }
    file.read_at(offset, len, into)
}

/// The same places in the file alone in which they are.
fn own_places(alloc: Global, places: &[Place]) -> Result<Vec<Place>, AllocError> {
    let mut own = Vec::new(alloc);
    for place in places {
        own.push(Place {
            at: place.at % FILE_LIMIT,
            len: place.len,
        })?;
    }
    Ok(own)
}

/// How many places stand in a file before the first one that doesn't.
fn count_in(places: &[Place], number: u64) -> usize
    ensures { result ≤ length places.now }
{
    let mut count = 0usize;
    for place in places {
        if place.at / FILE_LIMIT != number {
            return count;
        }
        count += 1;
    }
    count
}
