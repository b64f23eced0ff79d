//! A reader whose beginning and last failure are kept, for what is said of them on a terminal.

use crate::progress::Progress;
use std::io;
use std::io::Read;

/// How many bytes of the beginning are kept: enough to tell what kind of file it is.
const FRONT: usize = 16;

/// A reader that keeps its first bytes and what the system said of its last failure, and shows how far it is.
#[derive(Drop)]
pub struct Watched<'a, R> {
    reader: R,
    front: [u8; FRONT],
    front_len: usize,
    error: Option<i32>,
    progress: Progress<'a>,
}

impl<'a, R: Read> Watched<'a, R> {
    /// Watches a reader from its beginning.
    pub fn new(reader: R, progress: Progress<'a>) -> Watched<'a, R> {
        Watched {
            reader,
            front: [0; FRONT],
            front_len: 0,
            error: None,
            progress,
        }
    }

    /// The first bytes that it gave, at most sixteen.
    pub fn front(&self) -> &[u8] {
        let len = self.front_len.min(FRONT);
        &self.front[..len]
    }

    /// The system's number of its last failure.
    pub fn error(&self) -> Option<i32> {
        self.error
    }

    /// Takes away the line that shows how far it is.
    pub fn clear(&mut self) {
        self.progress.clear();
    }

    /// Keeps what of these bytes belongs to the beginning.
    fn keep(&mut self, bytes: &[u8]) {
        for byte in bytes.iter().take(FRONT) {
            if self.front_len < FRONT {
                self.front[self.front_len] = *byte;
                self.front_len += 1;
            }
        }
    }
}

impl<R: Read> Read for Watched<'_, R> {
    fn read(&mut self, buf: &mut [u8]) -> io::Result<usize> {
        match self.reader.read(buf) {
            Ok(len) => {
                if self.front_len < FRONT {
                    self.keep(&buf[..len]);
                }
                self.progress.advance(len as u64);
                Ok(len)
            }
            Err(error) => {
                self.error = error.raw_os_error();
                Err(error)
            }
        }
    }
}
