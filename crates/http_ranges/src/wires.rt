//! The connections to a server.

ghost use Rattle.std.specs.Prelude.{ℕ, List, [], ◌≡◌};
ghost use Rattle.http_ranges.specs.Transfers.{Receives, Sends};

/// How far a call moved bytes.
#[derive(Clone, Copy, Debug, PartialEq, Eq)]
pub enum Transfer {
    /// So many bytes were sent, or received. Of a receive it is one at least.
    Moved(usize),
    /// The server has closed or broken the connection.
    Closed,
    /// Nothing moved in time.
    Silent,
}

/// Up to six connections to one server, by their numbers from 0 on. Each call waits, for as long as the one who made it allows.
pub trait Wires {
    /// The connection has given exactly these bytes since it was opened. Of one that may give anything there are none of which
    /// this is so.
    ghost heard: { Self → ℕ → List ℕ → Type 0 };

    /// Opens the connection, in place of the one that it was, and says whether there is one.
    fn open(&mut self, wire: usize) -> bool
        ensures opened { (before : List ℕ) → heard self.old wire before → heard self.new wire [] };

    /// Sends bytes.
    fn send(&mut self, wire: usize, bytes: &[u8]) -> Transfer
        ensures sent { Sends bytes.now result }
        ensures heard { (before : List ℕ) → heard self.old wire before
            → heard self.new wire before };

    /// Waits for bytes, and puts them at the front of the piece.
    fn receive(&mut self, wire: usize, piece: &mut [u8]) -> Transfer
        ensures received { Receives (heard self.old wire) (heard self.new wire) piece.new result };
}
