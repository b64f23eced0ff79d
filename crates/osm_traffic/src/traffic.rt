//! Where connections and their bytes come from, and where answers go.

ghost use Rattle.std.specs.Prelude.{◌≡◌, IfOk, List, OnErr, OnOk, Option};
ghost use Rattle.osm_traffic.specs.Entries.{Entry, Reads, Writes, left_by, noted, taken_by, waited};

use crate::traffic_fault::TrafficFault;

/// What is next to do. Each may be told in vain, and of a connection that is gone.
#[derive(Clone, Copy, Debug, PartialEq, Eq)]
pub enum News {
    /// A connection waits to be taken.
    Waiting,
    /// Bytes of the connection may have come, or its end.
    Readable(u32),
    /// The connection may take bytes.
    Writable(u32),
    /// The connection has kept its place for too long: nothing came from it, it took nothing, its request wasn't complete
    /// in time, or another one waits for its place.
    Silent(u32),
    /// It is time to look for changes.
    Look,
}

/// Whether a further connection may be taken.
#[derive(Clone, Copy, Debug, PartialEq, Eq)]
pub enum Room {
    /// One may be taken.
    Free,
    /// As many are open as may be.
    Full,
    /// No further one is wanted.
    Closed,
}

/// What a read gave.
#[derive(Clone, Copy, Debug, PartialEq, Eq)]
pub enum Reading {
    /// So many bytes, at least one.
    Got(usize),
    /// Nothing yet. It is told when there is something.
    Later,
    /// The client sends no more.
    Ended,
    /// The connection is broken.
    Gone,
}

/// What a write did.
#[derive(Clone, Copy, Debug, PartialEq, Eq)]
pub enum Writing {
    /// So many bytes were taken, perhaps none. Where not all were, it is told when more are.
    Took(usize),
    /// The connection is broken.
    Gone,
}

/// The connections of a listening socket, each under the number that it was taken by. No call waits but `next`.
pub trait Traffic {
    /// What went in and out so far, the newest first, where it tells.
    ghost log: { Self → Option (List Entry) };

    /// Waits for what is next to do. That a connection waits is told only where there is room for it. Where there is
    /// none, but one waits, a connection that owes nothing may be told as silent.
    fn next(&mut self, room: Room) -> Result<News, TrafficFault>
        ensures told { OnOk result (log self.new ≡ noted (waited room) (log self.old)) }
        ensures refused { OnErr result (log self.new ≡ log self.old) };

    /// Takes the connection that waits, under this number, and tells whether there was one: it may be gone again.
    fn take(&mut self, number: u32) -> Result<bool, TrafficFault>
        ensures taken { IfOk result (λ is. log self.new ≡ taken_by is number (log self.old)) }
        ensures refused { OnErr result (log self.new ≡ log self.old) };

    /// Reads from the connection. What comes is cut after each empty line, and no more of the piece is offered than is
    /// wanted of the connection ([`osm_desk::Desk::wanted`]). So what is read completes one request at most.
    fn read(&mut self, number: u32, piece: &mut [u8]) -> Reading
        ensures read { Reads number piece.new (log self.old) (log self.new) result };

    /// Gives bytes to the connection.
    fn write(&mut self, number: u32, bytes: &[u8]) -> Writing
        ensures written { Writes number bytes.now (log self.old) (log self.new) result };

    /// Lets the connection go, and tells whether there was one. Where it is whole, what was written to it still arrives.
    fn end(&mut self, number: u32, whole: bool) -> bool
        ensures { log self.new ≡ left_by result number whole (log self.old) };
}
