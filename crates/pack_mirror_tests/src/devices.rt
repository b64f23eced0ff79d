//! Devices that a pack is read from.

use node_pack::{Place, ReadAt, ReadFault};
use std::cell::Cell;

/// Gives one file, and another one after so many calls: the first two are those that open a pack.
#[derive(Drop)]
pub(crate) struct Replaced<'a> {
    now: &'a [u8],
    later: &'a [u8],
    /// How many calls are still of the first file.
    before: u32,
}

impl<'a> Replaced<'a> {
    /// The file as it is for so many calls, and what it is later.
    pub(crate) fn new(now: &'a [u8], later: &'a [u8], before: u32) -> Replaced<'a> {
        Replaced { now, later, before }
    }

    /// What the file is at the next call.
    fn file(&mut self) -> &'a [u8] {
        if self.before == 0 {
            return self.later;
        }
        self.before -= 1;
        self.now
    }
}

impl ReadAt for Replaced<'_> {
    /// It may give anything.
    ghost reads = { λ device bytes. ⊥ };

    fn size(&mut self) -> Result<u64, ReadFault> {
        self.file().size()
    }

    fn read_at(&mut self, offset: u64, len: usize, into: &mut Vec<u8>) -> Result<(), ReadFault> {
        self.file().read_at(offset, len, into)
    }

    fn is_remote(&self) -> bool {
        false
    }

    fn expect(&mut self, _places: &[Place]) {}
}

/// What a device does at one call.
#[derive(Clone, Copy)]
pub(crate) enum Harm {
    /// It fails.
    Fails,
    /// It turns the lowest bit of the byte at this place of what it gives, if there is one.
    Turns(usize),
}

/// Gives a file, and does harm at one call.
#[derive(Drop)]
pub(crate) struct Harmful<'a> {
    file: &'a [u8],
    /// How many calls come before that one.
    before: u32,
    /// What it does then; none once it was done.
    harm: Option<Harm>,
}

impl<'a> Harmful<'a> {
    /// The file, how many calls come before the harmful one, and what it does.
    pub(crate) fn new(file: &'a [u8], before: u32, harm: Harm) -> Harmful<'a> {
        Harmful {
            file,
            before,
            harm: Some(harm),
        }
    }

    /// What this call does.
    fn next_harm(&mut self) -> Option<Harm> {
        if self.before > 0 {
            self.before -= 1;
            return None;
        }
        self.harm.take()
    }
}

impl ReadAt for Harmful<'_> {
    /// It may give anything.
    ghost reads = { λ device bytes. ⊥ };

    fn size(&mut self) -> Result<u64, ReadFault> {
        if let Some(Harm::Fails) = self.next_harm() {
            return Err(ReadFault::Device);
        }
        self.file.size()
    }

    fn read_at(&mut self, offset: u64, len: usize, into: &mut Vec<u8>) -> Result<(), ReadFault> {
        match self.next_harm() {
            Some(Harm::Fails) => Err(ReadFault::Device),
            Some(Harm::Turns(at)) => {
                self.file.read_at(offset, len, into)?;
                turn(into.as_mut_slice(), at, 1);
                Ok(())
            }
            None => self.file.read_at(offset, len, into),
        }
    }

    fn is_remote(&self) -> bool {
        false
    }

    fn expect(&mut self, _places: &[Place]) {}
}

/// Turns one bit of the byte at this place.
pub(crate) fn turn(bytes: &mut [u8], at: usize, bit: u8) {
    if let Some(byte) = bytes.get_mut(at) {
        *byte ^= bit;
    }
}

/// Gives a file, and counts how often it is read.
#[derive(Drop)]
pub(crate) struct Counted<'a> {
    file: &'a [u8],
    reads: &'a Cell<u32>,
}

impl<'a> Counted<'a> {
    /// The file, and where its reads are counted.
    pub(crate) fn new(file: &'a [u8], reads: &'a Cell<u32>) -> Counted<'a> {
        Counted { file, reads }
    }
}

impl ReadAt for Counted<'_> {
    /// It is the file, but nothing is proved of it.
    ghost reads = { λ device bytes. ⊥ };

    fn size(&mut self) -> Result<u64, ReadFault> {
        self.file.size()
    }

    fn read_at(&mut self, offset: u64, len: usize, into: &mut Vec<u8>) -> Result<(), ReadFault> {
        self.reads.set(self.reads.get().saturating_add(1));
        self.file.read_at(offset, len, into)
    }

    fn is_remote(&self) -> bool {
        false
    }

    fn expect(&mut self, _places: &[Place]) {}
}
