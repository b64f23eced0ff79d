//! Finding the first line that repeats a reference.

ghost use Rattle.std.specs.Prelude.{◌≡◌, OnOk};
ghost use Rattle.entry_sort.specs.internal.Names.{least_of, start, stepped};

use crate::last_key::LastKey;
use std::alloc::{AllocError, Global};

/// Goes over the lines that put objects, by rising reference, and keeps the least line that puts one whose reference a
/// lesser line puts.
#[derive(Drop)]
pub(crate) struct RepeatScan {
    last: LastKey,
    /// The least line of the last reference.
    least: u64,
    pub(crate) found: Option<u64>,
}

impl RepeatScan {
    /// Before the first line. It takes no memory.
    pub(crate) fn new(alloc: Global) -> RepeatScan
        ensures { result ≡ start }
    {
        RepeatScan {
            last: LastKey::new(alloc),
            least: 0,
            found: None,
        }
    }

    /// Takes the next reference, as its key, and the line that puts an object of it. The lines of one reference come in
    /// any order.
    pub(crate) fn take(&mut self, key: &[u8], line: u64) -> Result<(), AllocError>
        ensures { OnOk result (self.new ≡ stepped self.old key.now line) }
    {
        if self.last.rise(key)? {
            self.least = line;
        } else if self.least < line {
            self.found = Some(least_of(self.found, line));
        } else if line < self.least {
            self.found = Some(least_of(self.found, self.least));
            self.least = line;
        }
        Ok(())
    }
}

/// The lesser of two lines.
fn least_of(found: Option<u64>, line: u64) -> u64
    ensures { result ≡ least_of found line }
{
    match found {
        Some(first) => { if line < first { line } else { first } }
        None => line,
    }
}
