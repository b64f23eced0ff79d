//! What is known of a conversation that is open.

use crate::patience::{
    IDLE_SECONDS, MIRROR_IDLE_SECONDS, MIRROR_PACE_BYTES, PACE_BYTES, REQUEST_SECONDS,
};
use crate::readiness::Readiness;
use osm_relay::{Awaits, Turn};
use std::time::{Duration, Instant};

/// What is known of a conversation that is open.
#[derive(Clone, Copy)]
pub(crate) struct Talk {
    pub(crate) number: u32,
    awaits: Awaits,
    /// Since when it waits for that.
    since: Instant,
    /// When something last moved.
    heard: Instant,
    /// How many bytes have moved since it waits for that.
    moved: u64,
    /// It stands in the queue of those that may go on.
    pub(crate) is_queued: bool,
    /// The system has told of something to read at the mirror since it was dialled.
    is_mirror_heard: bool,
    /// The system has told of something to read at the client that may not have been read.
    pub(crate) is_client_heard: bool,
}

impl Talk {
    /// A conversation that begins.
    pub(crate) fn new(number: u32, now: Instant) -> Talk {
        Talk {
            number,
            awaits: Awaits::Request,
            since: now,
            heard: now,
            moved: 0,
            is_queued: false,
            is_mirror_heard: false,
            is_client_heard: false,
        }
    }

    /// Notes what a turn did, and what it waits for now. Says whether it may go on at once.
    pub(crate) fn note(&mut self, awaits: Awaits, turn: Turn, now: Instant) -> bool {
        if !is_same_side(awaits, self.awaits) {
            self.since = now;
            self.heard = now;
            self.moved = 0;
        }
        self.awaits = awaits;
        match turn {
            Turn::Moved(count) => {
                self.heard = now;
                self.moved = self.moved.saturating_add(count as u64);
                match awaits {
                    // A client that has just come, and a mirror that was just asked, may have sent nothing: the system
                    // tells once they have.
                    Awaits::Request => count > 0,
                    Awaits::Reply => self.is_mirror_heard,
                    Awaits::Mirror | Awaits::Client | Awaits::Nothing => true,
                }
            }
            Turn::Waits => false,
        }
    }

    /// A mirror is dialled.
    pub(crate) fn dial(&mut self) {
        self.is_mirror_heard = false;
    }

    /// Notes what the system tells of the client's socket, and says whether the conversation may go on.
    pub(crate) fn hear_client(&mut self, readiness: Readiness) -> bool {
        match self.awaits {
            Awaits::Request => {
                // The bytes are read now, but the end of the stream stays to be read.
                self.is_client_heard = self.is_client_heard || readiness.ends;
                readiness.reads
            }
            Awaits::Client | Awaits::Mirror | Awaits::Reply | Awaits::Nothing => {
                self.is_client_heard = self.is_client_heard || readiness.reads;
                self.awaits == Awaits::Client && readiness.writes
            }
        }
    }

    /// Notes what the system tells of the mirror's socket, and says whether the conversation may go on.
    pub(crate) fn hear_mirror(&mut self, readiness: Readiness) -> bool {
        self.is_mirror_heard = self.is_mirror_heard || readiness.reads;
        match self.awaits {
            Awaits::Mirror => readiness.writes,
            Awaits::Reply => readiness.reads,
            Awaits::Request | Awaits::Client | Awaits::Nothing => false,
        }
    }

    /// It was told that it is silent: its time begins anew.
    pub(crate) fn excuse(&mut self, now: Instant) {
        self.heard = now;
        self.since = now;
        self.moved = 0;
    }

    /// Whether what it waits for has taken too long.
    pub(crate) fn is_silent(&self, now: Instant) -> bool {
        let idle = now.duration_since(self.heard);
        let waited = now.duration_since(self.since);
        match self.awaits {
            Awaits::Request => {
                idle >= Duration::from_secs(IDLE_SECONDS)
                    || waited >= Duration::from_secs(REQUEST_SECONDS)
            }
            Awaits::Client => {
                idle >= Duration::from_secs(IDLE_SECONDS)
                    || waited >= allowed(IDLE_SECONDS, self.moved / PACE_BYTES)
            }
            // One that gives a byte now and then would hold a place for ever.
            Awaits::Mirror | Awaits::Reply => {
                idle >= Duration::from_secs(MIRROR_IDLE_SECONDS)
                    || waited >= allowed(MIRROR_IDLE_SECONDS, self.moved / MIRROR_PACE_BYTES)
            }
            Awaits::Nothing => idle >= Duration::from_secs(IDLE_SECONDS),
        }
    }
}

/// Whether it waits for the same side: a mirror has one time for its request and its response.
fn is_same_side(one: Awaits, other: Awaits) -> bool {
    match one {
        Awaits::Mirror | Awaits::Reply => matches!(other, Awaits::Mirror | Awaits::Reply),
        Awaits::Request | Awaits::Client | Awaits::Nothing => one == other,
    }
}

/// So many seconds, and [`IDLE_SECONDS`] more for each of some pieces that have moved.
fn allowed(seconds: u64, pieces: u64) -> Duration {
    Duration::from_secs(seconds.saturating_add(IDLE_SECONDS.saturating_mul(pieces)))
}
