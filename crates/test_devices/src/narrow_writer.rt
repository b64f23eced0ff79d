//! A writer that takes few bytes a call, and may stop.

use std::io;
use std::io::Write;

/// What a writer does at the call at which it stops.
#[derive(Clone, Copy, Debug, PartialEq, Eq)]
pub enum Stop {
    /// It fails.
    Fails,
    /// It takes nothing.
    TakesNothing,
    /// It takes all, and its flush fails.
    HoldsBack,
}

/// A writer that takes at most some bytes a call, and stops at one call. What it takes needs memory.
#[derive(Drop)]
pub struct NarrowWriter {
    /// What it has taken.
    pub taken: Vec<u8>,
    /// How many bytes it takes a call, at most.
    pub at_once: usize,
    /// The call at which it stops, from 1; at none where it is 0.
    pub stops_at: usize,
    /// What it does there.
    pub stop: Stop,
    /// How often it was called.
    pub calls: usize,
}

impl Write for NarrowWriter {
    fn write(&mut self, buf: &[u8]) -> io::Result<usize> {
        self.calls = self.calls.saturating_add(1);
        if self.calls == self.stops_at {
            return match self.stop {
                Stop::Fails => Err(io::Error::from(io::ErrorKind::Other)),
                Stop::TakesNothing | Stop::HoldsBack => Ok(0),
            };
        }
        let len = self.at_once.min(buf.len());
        self.taken.extend_from_slice(&buf[..len])?;
        Ok(len)
    }

    fn flush(&mut self) -> io::Result<()> {
        if self.stop == Stop::HoldsBack {
            return Err(io::Error::from(io::ErrorKind::Other));
        }
        Ok(())
    }
}
