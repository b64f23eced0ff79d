//! Where a mirror is reached.

ghost use Rattle.std.specs.Prelude.{◌≡◌, List, Option};
ghost use Rattle.mirror_reply.specs.Calls.{Call, Receives, Sends, noted, opened};

/// What a read gave.
#[derive(Clone, Copy, Debug, PartialEq, Eq)]
pub enum Receipt {
    /// So many bytes, at least one.
    Got(usize),
    /// The mirror has closed the connection: no more comes.
    Ended,
    /// The connection is broken, or nothing came in time.
    Broken,
}

/// A mirror that can be asked, over one connection at a time. Each call waits, for as long as the one who made it allows.
pub trait Dial {
    /// What was called so far and how it ended, the newest first, where it tells.
    ghost log: { Self → Option (List Call) };

    /// Opens a new connection, and says whether there is one.
    fn open(&mut self) -> bool
        ensures opened { log self.new ≡ noted (opened result) (log self.old) };

    /// Sends bytes, and says how many were taken; `None` where the connection is broken, or took nothing in time.
    fn send(&mut self, bytes: &[u8]) -> Option<usize>
        ensures sent { Sends bytes.now (log self.old) (log self.new) result };

    /// Waits for bytes, and puts them at the front of the piece.
    fn receive(&mut self, piece: &mut [u8]) -> Receipt
        ensures received { Receives piece.new (log self.old) (log self.new) result };
}
