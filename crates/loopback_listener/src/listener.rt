//! The listening socket.

ghost use Rattle.std.specs.Prelude.{◌≡◌, IfOk, IfSome, OnErr, OnOk, false, true};
ghost use Rattle.loopback_listener.specs.Listening.{IsTried};

use mio::net::{TcpListener, TcpStream};
use mio::{Interest, Registry, Token};
use std::io;
use std::io::ErrorKind;
use std::marker::Model;
use std::net::SocketAddr;
use std::time::{Duration, Instant};

/// The token of the listening socket. Those of connections are less.
pub const LISTENER: Token = Token(usize::MAX);

/// How long taking a connection isn't tried again after it has failed in passing, in milliseconds.
pub const RETRY_MILLISECONDS: u64 = 100;

/// How many times in a row it may fail in passing.
pub const FAILURE_LIMIT: u32 = 1000;

/// The numbers that Linux gives to failures of `accept` which pass: EPERM, EINTR, ENOMEM, ENFILE, EMFILE, EPROTO,
/// ENETDOWN, ECONNABORTED, ENOBUFS and EHOSTUNREACH (accept(2)).
const PASSING: [i32; 10] = [1, 4, 12, 23, 24, 71, 100, 103, 105, 113];

/// No further connection can be taken: `accept` failed in a way that doesn't pass, or a thousand times in a row.
#[derive(Clone, Copy, Debug, PartialEq, Eq)]
pub struct NotTaken;

/// A socket that listens for clients of this machine (127.0.0.1), and what is known of it.
#[derive(Drop)]
pub struct Listener {
    socket: TcpListener,
    /// A connection may wait: no `accept` has said since that there is none.
    is_waiting: bool,
    /// The system has said that one waits, and none was taken since.
    is_sure: bool,
    /// How many times in a row `accept` has failed in passing.
    failures: u32,
    /// When it last did so, if the last time was such a one.
    failed: Option<Instant>,
}

impl Model for Listener {
    ghost use Rattle.loopback_listener.specs.Listening.{Listening};

    ghost Value = { Listening };

    ghost view = { λ l. record {
      is_waiting = l.is_waiting;
      is_sure = l.is_sure;
      failures = l.failures;
    } };
}

impl Listener {
    /// Listens on this port, and has the system tell of connections that wait; 0 asks for any port that is free. Refused
    /// with what the system says where the port can't be had.
    pub fn open(rt: &HostRuntime, port: u16, registry: &Registry) -> io::Result<Listener>
        ensures { IfOk result (λ listener. listener ≡ record {
          is_waiting = true;
          is_sure = false;
          failures = 0;
        }) }
    {
        let mut socket = TcpListener::bind(rt, SocketAddr::from(([127, 0, 0, 1], port)))?;
        registry.register(&mut socket, LISTENER, Interest::READABLE)?;
        Ok(Listener {
            socket,
            is_waiting: true,
            is_sure: false,
            failures: 0,
            failed: None,
        })
    }

    /// Where it listens. Refused with what the system says where it doesn't tell.
    pub fn address(&self) -> io::Result<SocketAddr> {
        self.socket.local_addr()
    }

    /// Notes that the system says that a connection waits.
    pub fn note(&mut self)
        ensures { self.new ≡ record {
          is_waiting = true;
          is_sure = true;
          failures = self.old.failures;
        } }
    {
        self.is_waiting = true;
        self.is_sure = true;
    }

    /// Whether a connection may wait.
    pub fn is_waiting(&self) -> bool
        ensures { result ≡ self.now.is_waiting }
    {
        self.is_waiting
    }

    /// Whether the system has said that one waits, and taking one wasn't tried since.
    pub fn is_sure(&self) -> bool
        ensures { result ≡ self.now.is_sure }
    {
        self.is_sure
    }

    /// Whether one may wait, but taking it has failed a moment ago.
    pub fn is_paused(&self, now: Instant) -> bool
        ensures { result ≡ true → self.now.is_waiting ≡ true }
    {
        match self.failed {
            Some(failed) => {
                self.is_waiting
                    && now.duration_since(failed) < Duration::from_millis(RETRY_MILLISECONDS)
            }
            None => false,
        }
    }

    /// Has the system say once more whether a connection waits: registered anew, the socket is told of where one does.
    /// Refused with what the system says where it can't.
    pub fn ask_again(&mut self, registry: &Registry) -> io::Result<()>
        ensures { self.new ≡ record {
          is_waiting = false;
          is_sure = self.old.is_sure;
          failures = self.old.failures;
        } }
    {
        self.is_waiting = false;
        registry.reregister(&mut self.socket, LISTENER, Interest::READABLE)
    }

    /// Takes the connection that waits, if there is one. A failure that passes is as none, and is to be tried again a
    /// moment later; the thousandth in a row is refused, as any other failure.
    pub fn accept(&mut self, now: Instant) -> Result<Option<TcpStream>, NotTaken>
        ensures tried { OnOk result (IsTried self.old self.new) }
        ensures taken { IfOk result (λ client. IfSome client (λ _. self.new.failures ≡ 0)) }
        ensures sure { self.new.is_sure ≡ false }
        ensures refused { OnErr result (self.new.is_waiting ≡ self.old.is_waiting) }
    {
        self.is_sure = false;
        self.failed = None;
        match self.socket.accept() {
            Ok((stream, _)) => {
                self.failures = 0;
                Ok(Some(stream))
            }
            Err(error) if error.kind() == ErrorKind::WouldBlock => {
                self.failures = 0;
                self.is_waiting = false;
                Ok(None)
            }
            Err(error) => {
                self.failures = self.failures.saturating_add(1);
                if self.failures >= FAILURE_LIMIT || !is_passing(&error) {
                    return Err(NotTaken);
                }
                self.failed = Some(now);
                Ok(None)
            }
        }
    }
}

/// Whether the same call may well succeed later.
fn is_passing(error: &io::Error) -> bool {
    match error.raw_os_error() {
        Some(code) => PASSING.contains(&code),
        None => false,
    }
}
