//! Standard error of a server.

use libc::net::{POLLOUT, poll};
use libc::types::pollfd;
use osm_commands::ReadyWriter;
use std::io;
use std::io::{Stderr, Write};
use std::os::fd::AsRawFd;

/// Standard error, which may be a pipe that nobody reads: it says whether a write would be kept waiting.
#[derive(Drop)]
pub struct ServerErrors {
    output: Stderr,
}

impl ServerErrors {
    /// The program's standard error.
    pub fn new(rt: &HostRuntime) -> ServerErrors {
        ServerErrors {
            output: rt.stderr(),
        }
    }
}

impl Write for ServerErrors {
    fn write(&mut self, buf: &[u8]) -> io::Result<usize> {
        self.output.write(buf)
    }

    fn flush(&mut self) -> io::Result<()> {
        self.output.flush()
    }
}

impl ReadyWriter for ServerErrors {
    /// A pipe that the system calls ready takes 4,096 bytes at once (pipe(7)). One that nobody can read any more isn't ready,
    /// and neither is standard error that is closed.
    fn is_ready(&mut self) -> bool {
        let mut asked = [pollfd {
            fd: self.output.as_raw_fd(),
            events: POLLOUT,
            revents: 0,
        }];
        poll(&mut asked, 0) == 1 && asked[0].revents == POLLOUT
    }
}
