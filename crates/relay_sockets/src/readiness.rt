//! What the system tells of a socket.

use mio::event::Event;

/// What the system tells of a socket. A read or a write also says whether the connection has ended or is broken.
#[derive(Clone, Copy)]
pub(crate) struct Readiness {
    /// A read says something.
    pub(crate) reads: bool,
    /// A write says something.
    pub(crate) writes: bool,
    /// The other side sends no more.
    pub(crate) ends: bool,
}

impl Readiness {
    /// What this event tells.
    pub(crate) fn of(event: &Event) -> Readiness {
        let is_broken = event.is_error() || event.is_write_closed();
        Readiness {
            reads: event.is_readable() || event.is_read_closed() || is_broken,
            writes: event.is_writable() || is_broken,
            ends: event.is_read_closed() || is_broken,
        }
    }
}
