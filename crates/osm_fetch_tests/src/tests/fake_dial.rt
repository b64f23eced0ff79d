//! A dial that a test plays.

use mirror_reply::{Dial, Receipt};

/// A mirror that gives these bytes, and takes and gives at most some bytes a call.
#[derive(Drop)]
pub(super) struct FakeDial<'a> {
    pub(super) left: &'a [u8],
    pub(super) at_once: usize,
    /// The call that fails, from 1; none does where it is 0.
    pub(super) fails_at: usize,
    pub(super) calls: usize,
}

impl FakeDial<'_> {
    pub(super) fn new(left: &[u8], at_once: usize, fails_at: usize) -> FakeDial<'_> {
        FakeDial {
            left,
            at_once,
            fails_at,
            calls: 0,
        }
    }

    fn fails(&mut self) -> bool {
        self.calls = self.calls.saturating_add(1);
        self.calls == self.fails_at
    }
}

impl Dial for FakeDial<'_> {
    ghost use Rattle.std.specs.Prelude.{None};

    ghost log = { λ _. None };

    fn open(&mut self) -> bool {
        !self.fails()
    }

    fn send(&mut self, bytes: &[u8]) -> Option<usize> {
        if self.fails() {
            return None;
        }
        Some(self.at_once.min(bytes.len()))
    }

    fn receive(&mut self, piece: &mut [u8]) -> Receipt {
        if self.fails() {
            return Receipt::Broken;
        }
        let len = self.at_once.min(self.left.len()).min(piece.len());
        if len == 0 {
            return Receipt::Ended;
        }
        let (now, left) = self.left.split_at(len);
        piece[..len].copy_from_slice(now);
        self.left = left;
        Receipt::Got(len)
    }
}
