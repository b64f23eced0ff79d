//! One connection's socket.

ghost use Rattle.std.specs.Prelude.{◌≤◌, IfOk, length, take};
ghost use Rattle.osm_gate.specs.Pieces.{IsCut};

use crate::patience::{IDLE_SECONDS, LINGER_READS, LINGER_SECONDS, PACE_BYTES, REQUEST_SECONDS};
use mio::net::TcpStream;
use osm_traffic::give_piece;
use std::alloc::{AllocError, Global};
use std::io;
use std::io::{ErrorKind, Read, Write};
use std::net::Shutdown;
use std::time::{Duration, Instant};

/// How many bytes one read of a socket takes at most.
const READ_LIMIT: usize = 8192;

/// A connection's socket, and what is known of it.
#[derive(Drop)]
pub(crate) struct Peer {
    pub(crate) number: u32,
    pub(crate) stream: TcpStream,
    /// What was read of the socket. The bytes from `from` to `end` haven't been given on yet.
    bytes: Vec<u8>,
    from: usize,
    end: usize,
    /// A read may give something: no read has said since that there is nothing.
    is_readable: bool,
    /// A write took less than it was given, and none has taken all since.
    is_behind: bool,
    /// A write took nothing since the socket is full, and no event has come since.
    is_stuck: bool,
    /// It stands in the queue of those that are to be told of.
    pub(crate) is_queued: bool,
    /// The connection has been let go, and is read only until the client closes it too.
    pub(crate) is_leaving: bool,
    /// A read has found the end.
    has_ended: bool,
    /// How many reads it has still while it is leaving.
    reads_left: u32,
    /// When it last gave or took something.
    heard: Instant,
    /// When the first byte came of a request that hasn't been answered yet.
    begun: Option<Instant>,
    /// Since when it is behind, and how many bytes it has taken since.
    behind_since: Option<Instant>,
    taken: u64,
}

/// What a read of the socket found.
#[derive(Clone, Copy, Debug, PartialEq, Eq)]
pub(crate) enum SocketRead {
    /// Some bytes.
    Bytes,
    /// Nothing yet.
    Nothing,
    /// Nothing, but the next call may well find something.
    Again,
    /// The end.
    End,
    /// It is broken.
    Broken,
}

impl Peer {
    /// A connection that was just taken. Refused only where memory runs out.
    pub(crate) fn new(
        alloc: Global,
        number: u32,
        stream: TcpStream,
        now: Instant,
    ) -> Result<Peer, AllocError> {
        Ok(Peer {
            number,
            stream,
            bytes: vec![in alloc; 0; READ_LIMIT]?,
            from: 0,
            end: 0,
            is_readable: false,
            is_behind: false,
            is_stuck: false,
            is_queued: false,
            is_leaving: false,
            has_ended: false,
            reads_left: LINGER_READS,
            heard: now,
            begun: None,
            behind_since: None,
            taken: 0,
        })
    }

    /// Whether it has to take bytes before anything else.
    pub(crate) fn is_behind(&self) -> bool {
        self.is_behind
    }

    /// Whether a call may well get on with it now: a write where it has to take bytes, else a read.
    pub(crate) fn has_turn(&self) -> bool {
        if self.is_behind {
            !self.is_stuck
        } else {
            self.is_readable || self.from < self.end
        }
    }

    /// Notes what the system tells.
    pub(crate) fn note(&mut self, readable: bool, writable: bool, closed: bool) {
        self.is_readable = self.is_readable || readable || closed;
        self.is_stuck = self.is_stuck && !writable && !closed;
    }

    /// Reads from the socket where all that was read before has been given on.
    pub(crate) fn fill(&mut self, now: Instant) -> SocketRead {
        if self.from < self.end {
            return SocketRead::Bytes;
        }
        self.from = 0;
        self.end = 0;
        match self.stream.read(&mut self.bytes) {
            Ok(0) => {
                self.has_ended = true;
                SocketRead::End
            }
            Ok(count) => {
                self.end = count;
                self.heard = now;
                // Fewer bytes than asked needn't be all that there are: the next read tells.
                SocketRead::Bytes
            }
            Err(error) if error.kind() == ErrorKind::WouldBlock => {
                self.is_readable = false;
                SocketRead::Nothing
            }
            Err(error) if error.kind() == ErrorKind::Interrupted => SocketRead::Again,
            Err(_) => SocketRead::Broken,
        }
    }

    /// Gives on what was read, up to the first empty line.
    pub(crate) fn give(&mut self, piece: &mut [u8], now: Instant) -> usize
        ensures fits { result ≤ length piece.new }
        ensures cut { IsCut (take result piece.new) }
    {
        if self.begun.is_none() {
            self.begun = Some(now);
        }
        let Some(bytes) = self.bytes.get(self.from..self.end) else {
            return 0;
        };
        let count = give_piece(bytes, piece);
        self.from = self.from.saturating_add(count);
        count
    }

    /// Gives bytes to the socket. One that takes none of them, without a reason, is broken.
    pub(crate) fn write(&mut self, bytes: &[u8], now: Instant) -> io::Result<usize>
        ensures { IfOk result (λ count. count ≤ length bytes.now) }
    {
        match self.stream.write(bytes) {
            Ok(0) => Err(io::Error::from(ErrorKind::WriteZero)),
            Ok(count) => {
                self.heard = now;
                // The next request has begun where bytes of it were read.
                self.begun = if self.from < self.end {
                    Some(now)
                } else {
                    None
                };
                // Fewer bytes than given needn't be all that it takes: the next write tells.
                if count < bytes.len() {
                    self.fall_behind(now, count);
                } else {
                    self.is_behind = false;
                    self.behind_since = None;
                }
                self.is_stuck = false;
                Ok(count)
            }
            Err(error) => {
                self.fall_behind(now, 0);
                self.is_stuck = error.kind() == ErrorKind::WouldBlock;
                Err(error)
            }
        }
    }

    /// Notes that it has taken no more than these bytes of what it was given.
    fn fall_behind(&mut self, now: Instant, count: usize) {
        self.is_behind = true;
        if self.behind_since.is_none() {
            self.behind_since = Some(now);
            self.taken = 0;
        }
        self.taken = self.taken.saturating_add(count as u64);
    }

    /// Tells the client that nothing more comes, and tells whether it is to be read on until it closes its side too.
    pub(crate) fn leave(&mut self, now: Instant) -> bool {
        if self.has_ended || self.stream.shutdown(Shutdown::Write).is_err() {
            return false;
        }
        self.is_leaving = true;
        self.heard = now;
        true
    }

    /// Reads on at a connection that was let go.
    pub(crate) fn read_on(&mut self) -> SocketRead {
        match self.stream.read(&mut self.bytes) {
            Ok(0) => SocketRead::End,
            Ok(_) => {
                self.reads_left = self.reads_left.saturating_sub(1);
                if self.reads_left > 0 {
                    SocketRead::Again
                } else {
                    SocketRead::End
                }
            }
            Err(error) if error.kind() == ErrorKind::WouldBlock => SocketRead::Nothing,
            Err(error) if error.kind() == ErrorKind::Interrupted => SocketRead::Again,
            Err(_) => SocketRead::Broken,
        }
    }

    /// Whether it has kept its place for too long.
    pub(crate) fn is_silent(&self, now: Instant) -> bool {
        if self.is_leaving {
            return now.duration_since(self.heard) >= Duration::from_secs(LINGER_SECONDS);
        }
        if now.duration_since(self.heard) >= Duration::from_secs(IDLE_SECONDS)
            || self.is_slow(now)
        {
            return true;
        }
        match self.begun {
            Some(begun) => {
                !self.is_behind && now.duration_since(begun) >= Duration::from_secs(REQUEST_SECONDS)
            }
            None => false,
        }
    }

    /// Whether it takes what it is given too slowly: less than [`PACE_BYTES`] in each [`IDLE_SECONDS`], over all the time
    /// that it has been behind.
    fn is_slow(&self, now: Instant) -> bool {
        match self.behind_since {
            Some(since) => {
                let periods = (self.taken / PACE_BYTES).saturating_add(1);
                now.duration_since(since)
                    >= Duration::from_secs(IDLE_SECONDS.saturating_mul(periods))
            }
            None => false,
        }
    }

    /// Whether nothing is to be told of it and it owes nothing, so that it may make room for another one.
    pub(crate) fn may_go(&self) -> bool {
        !self.is_leaving && !self.is_behind && !self.is_queued && self.from >= self.end
    }

    /// When it last gave or took something.
    pub(crate) fn heard(&self) -> Instant {
        self.heard
    }
}
