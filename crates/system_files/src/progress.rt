//! How far a command is, shown on a terminal.

use std::fs;
use std::io::{IsTerminal, Write};

/// After how many bytes the line is written again.
const STEP: u64 = 4_194_304;

/// How far the reading of a set is: one line of standard error, written again after every 4 MiB and taken away at the end.
/// Where standard error is no terminal nothing is shown.
#[derive(Drop)]
pub struct Progress<'a> {
    rt: &'a HostRuntime,
    /// Whether there is anybody to show it to.
    is_shown: bool,
    /// How many bytes were read.
    read: u64,
    /// How many there are, or 0 where that isn't known.
    len: u64,
    /// At how many bytes the line is written next.
    next: u64,
}

impl<'a> Progress<'a> {
    /// The progress of reading this file.
    pub fn of_file(rt: &'a HostRuntime, path: &str) -> Progress<'a> {
        let is_shown = rt.stderr().is_terminal();
        let mut len = 0;
        if is_shown {
            if let Ok(metadata) = fs::metadata(rt, path) {
                len = metadata.len();
            }
        }
        Progress {
            rt,
            is_shown,
            read: 0,
            len,
            next: STEP,
        }
    }

    /// The progress of reading what has no known length.
    pub fn of_stream(rt: &'a HostRuntime) -> Progress<'a> {
        Progress {
            rt,
            is_shown: rt.stderr().is_terminal(),
            read: 0,
            len: 0,
            next: STEP,
        }
    }

    /// A progress that nobody sees.
    pub fn none(rt: &'a HostRuntime) -> Progress<'a> {
        Progress {
            rt,
            is_shown: false,
            read: 0,
            len: 0,
            next: STEP,
        }
    }

    /// So many bytes more were read; none at the end.
    pub fn advance(&mut self, count: u64) {
        self.read = self.read.saturating_add(count);
        if !self.is_shown || self.next == u64::MAX {
            return;
        }
        if count == 0 && self.next > STEP {
            self.next = u64::MAX;
            let _ = write!(self.rt.stderr(), "\r\x1b[2Kbuilding the trees");
        } else if self.read >= self.next {
            self.next = self.read.saturating_add(STEP);
            self.show();
        }
    }

    /// Takes the line away, if there is one.
    pub fn clear(&mut self) {
        if self.is_shown && self.next > STEP {
            let _ = write!(self.rt.stderr(), "\r\x1b[2K");
        }
    }

    /// Writes the line.
    fn show(&self) {
        let megabytes = self.read / 1_000_000;
        if self.len == 0 {
            let _ = write!(self.rt.stderr(), "\r\x1b[2K{megabytes} MB read");
            return;
        }
        let percent = self.read / (self.len / 100 + 1);
        let _ = write!(
            self.rt.stderr(),
            "\r\x1b[2K{percent} % read, {megabytes} MB"
        );
    }
}
