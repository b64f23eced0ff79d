//! The bytes that came on a connection and aren't taken yet.

ghost use Rattle.std.specs.Prelude.{◌≡◌, ◌<◌, ◌≤◌, [], ◌++◌, OnOk, drop, length};
ghost use Rattle.http_ranges.specs.internal.Passing.{Passes};

use crate::limits::PIECE_LIMIT;
use crate::not_given::NotGiven;
use crate::wires::{Transfer, Wires};
use std::alloc::{AllocError, Global};
use std::marker::Model;

/// The bytes that came on a connection and aren't taken yet. Contracts see them as a list.
#[derive(Drop)]
pub(crate) struct Incoming {
    bytes: Vec<u8>,
    taken: usize,
}

impl Model for Incoming {
    ghost use Rattle.std.specs.Prelude.{ℕ, List, ◌≤◌, drop, length};

    ghost Value = { List ℕ };

    ghost view = { λ i. drop i.taken i.bytes.items };

    ghost invariant = { λ i. i.taken ≤ length i.bytes.items };
}

impl Incoming {
    /// None came. It takes no memory.
    pub(crate) fn new(alloc: Global) -> Incoming
        ensures { result ≡ [] }
    {
        Incoming {
            bytes: Vec::new(alloc),
            taken: 0,
        }
    }

    /// The bytes.
    pub(crate) fn rest(&self) -> &[u8]
        ensures { result.now ≡ self.now }
    {
        &self.bytes[self.taken..]
    }

    /// Takes the first of the bytes.
    pub(crate) fn skip(&mut self, count: usize)
        requires { count ≤ length self.old }
        ensures { self.new ≡ drop count self.old }
    {
        self.taken += count;
    }

    /// Forgets all of them.
    pub(crate) fn clear(&mut self)
        ensures { self.new ≡ [] }
    {
        self.bytes.clear();
        self.taken = 0;
    }

    /// Waits for more bytes of this connection.
    pub(crate) fn pull<W: Wires>(&mut self, wires: &mut W, wire: usize) -> Result<(), NotGiven>
        ensures more { OnOk result (length self.old < length self.new) }
        ensures passes { OnOk result
            (Passes [] (W.heard wires.old wire) self.old (W.heard wires.new wire) self.new) }
    {
        self.compact();
        let mut piece = [0; PIECE_LIMIT];
        match wires.receive(wire, &mut piece) {
            Transfer::Moved(count) => {
                self.append(&piece[..count])?;
                Ok(())
            }
            Transfer::Closed => Err(NotGiven::ClosedEarly),
            Transfer::Silent => Err(NotGiven::Silent),
        }
    }

    fn append(&mut self, piece: &[u8]) -> Result<(), AllocError>
        ensures { OnOk result (self.new ≡ self.old ++ piece.now) }
    {
        self.bytes.extend_from_slice(piece)
    }

    /// Gives the room of the bytes that were taken to those that come.
    fn compact(&mut self)
        ensures { self.new ≡ self.old }
    {
        if self.taken == 0 {
            return;
        }
        let left = self.bytes.len() - self.taken;
        self.bytes.rotate_left(self.taken);
        self.bytes.truncate(left);
        self.taken = 0;
    }
}
