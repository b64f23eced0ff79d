//! A reader that is slow, and may fail.

use std::io;
use std::io::Read;

/// A reader that gives at most some bytes a call, and fails at one call.
#[derive(Drop)]
pub struct SlowReader<'a> {
    /// The bytes that it hasn't given yet.
    pub left: &'a [u8],
    /// How many bytes it gives a call, at most.
    pub at_once: usize,
    /// The call at which it fails, from 1; at none where it is 0.
    pub fails_at: usize,
    /// How often it was called.
    pub calls: usize,
}

impl Read for SlowReader<'_> {
    fn read(&mut self, buf: &mut [u8]) -> io::Result<usize> {
        self.calls = self.calls.saturating_add(1);
        if self.calls == self.fails_at {
            return Err(io::Error::from(io::ErrorKind::Other));
        }
        let len = self.at_once.min(self.left.len()).min(buf.len());
        let (now, left) = self.left.split_at(len);
        buf[..len].copy_from_slice(now);
        self.left = left;
        Ok(len)
    }
}
