//! Clients that were let go.

use crate::patience::{LINGER_READS, LINGER_SECONDS};
use crate::plug::Plug;
use osm_relay::{Reading, Wire};
use std::time::{Duration, Instant};

/// How many bytes one read takes.
const PIECE_LIMIT: usize = 8192;

/// A client that was let go, which is read on until it closes too: where bytes are left unread, closing at once would have the
/// system throw away what the client hasn't read yet (RFC 9112, section 9.6).
#[derive(Drop)]
pub(crate) struct Leaving {
    pub(crate) number: u32,
    plug: Plug,
    since: Instant,
    /// How many reads it has still.
    reads_left: u32,
}

impl Leaving {
    /// A client that was told that nothing more comes.
    pub(crate) fn new(number: u32, plug: Plug, now: Instant) -> Leaving {
        Leaving {
            number,
            plug,
            since: now,
            reads_left: LINGER_READS,
        }
    }

    /// Reads on as far as there is something, and says whether the client stays.
    pub(crate) fn read_on(&mut self) -> bool {
        let mut piece = [0; PIECE_LIMIT];
        for _ in 0..self.reads_left {
            match self.plug.read(&mut piece) {
                Reading::Got(_) => self.reads_left = self.reads_left.saturating_sub(1),
                Reading::Later => return true,
                Reading::Ended | Reading::Gone => return false,
            }
        }
        false
    }

    /// Whether it has been read on for long enough.
    pub(crate) fn is_late(&self, now: Instant) -> bool {
        now.duration_since(self.since) >= Duration::from_secs(LINGER_SECONDS)
    }
}
