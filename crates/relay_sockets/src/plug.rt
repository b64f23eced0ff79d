//! Wires over sockets.

use mio::net::TcpStream;
use osm_relay::{Reading, Wire, Writing};
use std::io::{ErrorKind, Read, Write};
use std::net::Shutdown;

/// How many times a call that a signal interrupts is made again.
const RETRIES: u32 = 16;

/// A socket that is connected, or about to be.
#[derive(Drop)]
pub struct Plug {
    stream: TcpStream,
    /// The last read took all that was there.
    is_drained: bool,
}

impl Plug {
    /// A socket that nothing was read from yet.
    pub(crate) fn new(stream: TcpStream) -> Plug {
        Plug {
            stream,
            is_drained: false,
        }
    }

    /// Tells the other side that nothing more comes, and says whether that was possible.
    pub(crate) fn end(&mut self) -> bool {
        self.stream.shutdown(Shutdown::Write).is_ok()
    }

    /// Whether the last read took all that was there: where more has come since, the system tells of it.
    pub(crate) fn is_drained(&self) -> bool {
        self.is_drained
    }
}

impl Wire for Plug {
    ghost use Rattle.osm_relay.specs.Logs.{fresh};
    ghost use Rattle.std.specs.Prelude.{false};

    ghost tells = { false };

    ghost log = { λ _. fresh };

    fn read(&mut self, piece: &mut [u8]) -> Reading {
        self.is_drained = false;
        for _ in 0..RETRIES {
            match self.stream.read(piece) {
                Ok(0) => return Reading::Ended,
                Ok(count) => {
                    self.is_drained = count < piece.len();
                    return Reading::Got(count);
                }
                Err(error) if error.kind() == ErrorKind::WouldBlock => {
                    self.is_drained = true;
                    return Reading::Later;
                }
                Err(error) if error.kind() == ErrorKind::Interrupted => {}
                Err(_) => return Reading::Gone,
            }
        }
        Reading::Gone
    }

    fn write(&mut self, bytes: &[u8]) -> Writing {
        for _ in 0..RETRIES {
            match self.stream.write(bytes) {
                Ok(0) => return Writing::Gone,
                Ok(count) => return Writing::Took(count),
                Err(error) if error.kind() == ErrorKind::WouldBlock => return Writing::Took(0),
                Err(error) if error.kind() == ErrorKind::Interrupted => {}
                Err(_) => return Writing::Gone,
            }
        }
        Writing::Gone
    }
}
