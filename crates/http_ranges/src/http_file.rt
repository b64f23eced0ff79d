//! A file on a server.

ghost use Rattle.std.specs.Prelude.{OnOk};
ghost use Rattle.http_ranges.specs.Appending.{Appends};

use crate::address::Address;
use crate::byte_range::ByteRange;
use crate::connections::Connections;
use crate::judging::Given;
use crate::kept::Kept;
use crate::limits::FRONT_LEN;
use crate::not_given::NotGiven;
use crate::request::range_request;
use crate::span::Span;
use crate::wires::Wires;
use node_pack::{Place, ReadAt, ReadFault};
use std::alloc::Global;
use std::cell::Cell;

/// A file on a server, read by requests for ranges of it.
///
/// Its size comes with the first 64 KiB, which are kept. What a hint says is brought ahead over up to six connections, and
/// kept too, up to a number of bytes; what passes it is left to the reads. A read is of what is kept, or takes a request of its
/// own, for exactly its bytes. Nothing that comes is trusted to be the file's: who reads has to check it.
#[derive(Drop)]
pub struct HttpFile<'a, W: Wires + Drop> {
    pub(crate) alloc: Global,
    pub(crate) address: Address<'a>,
    pub(crate) connections: Connections<W>,
    pub(crate) kept: Kept,
    pub(crate) size: Option<u64>,
    /// How many bytes may still be brought ahead.
    pub(crate) budget: u64,
    /// Whether the server keeps connections open, as far as is known.
    pub(crate) is_persistent: bool,
    reason: &'a Cell<Option<NotGiven>>,
}

impl<'a, W: Wires + Drop> HttpFile<'a, W> {
    /// The file at this address. Nothing is asked yet. At most so many bytes are brought ahead. Why the server gave no bytes is
    /// left in `reason`, each time that a call is refused.
    pub fn new(
        alloc: Global,
        wires: W,
        address: Address<'a>,
        budget: u64,
        reason: &'a Cell<Option<NotGiven>>,
    ) -> HttpFile<'a, W> {
        HttpFile {
            alloc,
            address,
            connections: Connections::new(alloc, wires),
            kept: Kept::new(alloc),
            size: None,
            budget,
            is_persistent: true,
            reason,
        }
    }

    /// The size of the file, which comes with its first bytes.
    pub(crate) fn find_size(&mut self) -> Result<u64, NotGiven> {
        if let Some(size) = self.size {
            return Ok(size);
        }
        let asked = ByteRange {
            first: 0,
            last: FRONT_LEN - 1,
        };
        let request = range_request(self.alloc, &self.address, asked)?;
        let from = self.kept.bytes.len();
        let given = self
            .connections
            .ask(&request, asked, None, &mut self.kept.bytes)?;
        let front = Span {
            start: 0,
            end: given.len,
        };
        self.kept.note(front, from)?;
        self.note(given);
        Ok(given.size)
    }

    /// Notes what a response says of the file and of the server.
    pub(crate) fn note(&mut self, given: Given) {
        self.size = Some(given.size);
        self.is_persistent = !given.closes;
    }

    /// Appends so many bytes of the file, from the offset on.
    fn read(&mut self, offset: u64, len: usize, into: &mut Vec<u8>) -> Result<(), NotGiven>
        ensures { OnOk result (Appends len into.old.items into.new.items) }
    {
        self.find_size()?;
        self.find(offset, len, into)
    }

    /// The same, of a file whose size is known.
    fn find(&mut self, offset: u64, len: usize, into: &mut Vec<u8>) -> Result<(), NotGiven>
        ensures { OnOk result (Appends len into.old.items into.new.items) }
    {
        if let Some(part) = self.kept.find(offset, len) {
            into.extend_from_slice(part)?;
            return Ok(());
        }
        self.fetch(offset, len, into)
    }

    /// The same, by a request.
    fn fetch(&mut self, offset: u64, len: usize, into: &mut Vec<u8>) -> Result<(), NotGiven>
        ensures { OnOk result (Appends len into.old.items into.new.items) }
    {
        if len == 0 {
            return Ok(());
        }
        let Some(asked) = range_of(offset, len) else {
            return Err(NotGiven::Malformed);
        };
        let request = range_request(self.alloc, &self.address, asked)?;
        let given = self.connections.ask(&request, asked, self.size, into)?;
        self.note(given);
        if given.len == len as u64 {
            Ok(())
        } else {
            Err(NotGiven::Malformed)
        }
    }

    /// What a refusal is to who reads. It is left where the caller sees it.
    fn refuse(&self, why: NotGiven) -> ReadFault {
        self.reason.set(Some(why));
        match why {
            NotGiven::Memory => ReadFault::Memory,
            _ => ReadFault::Device,
        }
    }
}

impl<W: Wires + Drop> ReadAt for HttpFile<'_, W> {
    ghost use Rattle.std.specs.Prelude.{ℕ, List, OnOk, ◌≡◌, ◌++◌, take, drop};
    ghost use Rattle.http_ranges.specs.Appending.{Appends};

    /// A server may give anything.
    ghost reads = { λ file bytes. ⊥ };

    fn size(&mut self) -> Result<u64, ReadFault> {
        match self.find_size() {
            Ok(size) => Ok(size),
            Err(why) => Err(self.refuse(why)),
        }
    }

    /// It asks for the size first, where that isn't known.
    fn read_at(&mut self, offset: u64, len: usize, into: &mut Vec<u8>) -> Result<(), ReadFault>
        ensures read { (bytes : List ℕ) → ⊥ → OnOk result
            (into.new.items ≡ into.old.items ++ take len (drop offset bytes)) }
        // So many bytes are appended, and nothing else changes.
        ensures appended { OnOk result (Appends len into.old.items into.new.items) }
    {
        match self.read(offset, len, into) {
            Ok(()) => Ok(()),
            Err(why) => Err(self.refuse(why)),
        }
    }

    /// Each read that isn't of what is kept takes a round trip.
    fn is_remote(&self) -> bool {
        true
    }

    /// Brings the bytes at these places ahead, as far as the budget allows. Nothing is told of a hint that fails: the read tells.
    fn expect(&mut self, places: &[Place]) {
        if self.bring(places).is_err() {
            self.connections.shut_all();
        }
        self.kept.sort();
    }
}

/// The range of so many bytes from the offset on; `None` where it has none, or passes 2^64.
fn range_of(offset: u64, len: usize) -> Option<ByteRange> {
    let more = (len as u64).checked_sub(1)?;
    let last = offset.checked_add(more)?;
    Some(ByteRange {
        first: offset,
        last,
    })
}
