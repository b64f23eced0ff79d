//! A mirror that is reached over TCP.

use mirror_reply::{Dial, Receipt};
use std::io::{ErrorKind, Read, Write};
use std::net::{TcpStream, ToSocketAddrs};
use std::time::{Duration, Instant};

/// How long connecting to one address may take, and a write, in seconds.
const CALL_SECONDS: u64 = 10;

/// How long the first byte of a response may take, in seconds: the mirror answers the query meanwhile.
const ANSWER_SECONDS: u64 = 60;

/// How many bytes of a response have to come in each [`CALL_SECONDS`] after the first one.
const PACE_BYTES: u64 = 65_536;

/// How many times in a row a call is made again that a signal has broken off.
const RETRY_LIMIT: u32 = 1000;

/// A mirror at a place `HOST:PORT`, over one connection at a time.
#[derive(Drop)]
pub struct TcpDial<'a> {
    rt: &'a HostRuntime,
    place: &'a str,
    /// How long the first byte of a response may take, in seconds.
    patience: u64,
    stream: Option<TcpStream>,
    /// When the first byte of the response came, and how many have come since.
    begun: Option<Instant>,
    received: u64,
    /// What the system said of the last call that failed.
    error: Option<i32>,
}

impl<'a> TcpDial<'a> {
    /// Nothing is opened yet.
    pub fn new(rt: &'a HostRuntime, place: &'a str) -> TcpDial<'a> {
        TcpDial::of_patience(rt, place, ANSWER_SECONDS)
    }

    /// A place that only reads what it answers: the first byte may take no longer than the next ones.
    pub fn of_files(rt: &'a HostRuntime, place: &'a str) -> TcpDial<'a> {
        TcpDial::of_patience(rt, place, CALL_SECONDS)
    }

    fn of_patience(rt: &'a HostRuntime, place: &'a str, patience: u64) -> TcpDial<'a> {
        TcpDial {
            rt,
            place,
            patience,
            stream: None,
            begun: None,
            received: 0,
            error: None,
        }
    }

    /// What the system said of the last call that failed.
    pub fn error(&self) -> Option<i32> {
        self.error
    }

    /// A further response is awaited: its pace is counted from its first byte on.
    pub fn begin(&mut self) {
        self.begun = None;
        self.received = 0;
    }

    /// A connection to the first of the place's addresses that takes one.
    fn connect(&mut self) -> Option<TcpStream> {
        let addresses = match self.place.to_socket_addrs(self.rt) {
            Ok(addresses) => addresses,
            Err(error) => {
                self.error = error.raw_os_error();
                return None;
            }
        };
        let patience = Duration::from_secs(CALL_SECONDS);
        for address in addresses {
            match TcpStream::connect_timeout(self.rt, &address, patience) {
                Ok(stream) => return Some(stream),
                Err(error) => self.error = error.raw_os_error(),
            }
        }
        None
    }

    /// Whether the response comes too slowly.
    fn is_slow(&self) -> bool {
        let Some(begun) = self.begun else {
            return false;
        };
        let Ok(now) = Instant::now(self.rt) else {
            return false;
        };
        let periods = (self.received / PACE_BYTES).saturating_add(1);
        now.duration_since(begun) > Duration::from_secs(CALL_SECONDS.saturating_mul(periods))
    }

    /// Notes that so many bytes have come. From the first one on each read has less time.
    fn note(&mut self, count: usize) {
        self.received = self.received.saturating_add(count as u64);
        if self.begun.is_some() {
            return;
        }
        if let Ok(now) = Instant::now(self.rt) {
            self.begun = Some(now);
        }
        if let Some(stream) = &self.stream {
            // Where it can't be set, the pace is still looked at after each read.
            let _ = stream.set_read_timeout(Some(Duration::from_secs(CALL_SECONDS)));
        }
    }
}

impl<'a> Dial for TcpDial<'a> {
    ghost use Rattle.std.specs.Prelude.{None};

    ghost log = { λ _. None };

    fn open(&mut self) -> bool {
        self.begin();
        self.stream = self.connect();
        let Some(stream) = &self.stream else {
            return false;
        };
        // What was said of an address before doesn't matter now.
        self.error = None;
        // A connection that may wait for ever is none.
        stream
            .set_read_timeout(Some(Duration::from_secs(self.patience)))
            .is_ok()
            && stream
                .set_write_timeout(Some(Duration::from_secs(CALL_SECONDS)))
                .is_ok()
    }

    fn send(&mut self, bytes: &[u8]) -> Option<usize> {
        let stream = self.stream.as_mut()?;
        for _ in 0..RETRY_LIMIT {
            match stream.write(bytes) {
                Ok(count) => return Some(count),
                Err(error) if error.kind() == ErrorKind::Interrupted => {}
                Err(error) => {
                    self.error = error.raw_os_error();
                    return None;
                }
            }
        }
        None
    }

    fn receive(&mut self, piece: &mut [u8]) -> Receipt {
        if self.is_slow() {
            return Receipt::Broken;
        }
        for _ in 0..RETRY_LIMIT {
            let Some(stream) = &mut self.stream else {
                return Receipt::Broken;
            };
            match stream.read(piece) {
                Ok(0) => return Receipt::Ended,
                Ok(count) => {
                    self.note(count);
                    return Receipt::Got(count);
                }
                Err(error) if error.kind() == ErrorKind::Interrupted => {}
                Err(error) => {
                    self.error = error.raw_os_error();
                    return Receipt::Broken;
                }
            }
        }
        Receipt::Broken
    }
}
