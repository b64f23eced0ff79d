//! Connections of bytes.

ghost use Rattle.std.specs.Prelude.{◌≡◌, Bool, length, true};
ghost use Rattle.osm_relay.specs.Logs.{GivesAtMost, Log, Reads, TakesAtMost, Writes};

/// What a read gave.
#[derive(Clone, Copy, Debug, PartialEq, Eq)]
pub enum Reading {
    /// So many bytes, at least one.
    Got(usize),
    /// Nothing yet.
    Later,
    /// The other side sends no more.
    Ended,
    /// The connection is broken.
    Gone,
}

/// What a write did.
#[derive(Clone, Copy, Debug, PartialEq, Eq)]
pub enum Writing {
    /// So many bytes were taken, perhaps none.
    Took(usize),
    /// The connection is broken.
    Gone,
}

/// A connection of bytes, to a client or to a mirror. No call waits.
pub trait Wire: Drop {
    /// Whether wires of this kind tell what went over them.
    ghost tells: { Bool };

    /// What it gave and took so far, where it tells.
    ghost log: { Self → Log };

    /// Reads bytes, and puts them at the front of the piece.
    fn read(&mut self, piece: &mut [u8]) -> Reading
        ensures fits { GivesAtMost (length piece.new) result }
        ensures log { tells ≡ true → Reads piece.new (log self.old) (log self.new) result };

    /// Writes bytes, as many as are taken now.
    fn write(&mut self, bytes: &[u8]) -> Writing
        ensures fits { TakesAtMost (length bytes.now) result }
        ensures log { tells ≡ true → Writes bytes.now (log self.old) (log self.new) result };
}
