//! What is left to be written of some chunks.

ghost use Rattle.std.specs.Prelude.{◌≡◌, ◌++◌, ◌<◌, ◌≤◌, ℕ, List, drop, length};

use crate::chunks::Chunks;
use std::marker::Model;

/// What is left to be written of some chunks: the rest of the first, and those after it. Contracts see it as all of these
/// bytes.
#[derive(Drop)]
pub struct Unsent {
    first: Vec<u8>,
    /// So many bytes of the first chunk were taken.
    taken: usize,
    later: Chunks,
}

impl Model for Unsent {
    ghost use Rattle.std.specs.Prelude.{List, ℕ, [], ◌++◌, ◌≡◌, ◌≤◌, drop, vec_len};

    ghost Value = { List ℕ };

    ghost view = { λ unsent. drop unsent.taken unsent.first.items ++ unsent.later };

    ghost invariant = { λ unsent. (unsent.taken ≤ vec_len unsent.first)
        × (vec_len unsent.first ≤ unsent.taken → unsent.later ≡ []) };
}

impl Unsent {
    /// All of the chunks. It takes no memory.
    pub fn new(chunks: Chunks) -> Unsent
        ensures { result ≡ chunks }
    {
        let mut later = chunks;
        let first = later.take_first();
        Unsent {
            first,
            taken: 0,
            later,
        }
    }

    /// What is left of the first chunk that isn't all taken; nothing once all chunks are.
    pub fn bytes(&self) -> &[u8]
        ensures front { (rest : List ℕ) × (self.now ≡ result.now ++ rest) }
        ensures some { 0 < length self.now → 0 < length result.now }
    {
        &self.first[self.taken..]
    }

    /// So many bytes were taken. The memory of each chunk is free again once all of it is taken.
    pub fn advance(&mut self, count: usize)
        requires { count ≤ length self.old }
        ensures { self.new ≡ drop count self.old }
    {
        let mut left = count;
        while left > 0 {
            left -= self.advance_in_chunk(left);
        }
    }

    /// At most so many bytes were taken: no more than are left of the first chunk. Tells how many.
    fn advance_in_chunk(&mut self, most: usize) -> usize
        ensures off { self.new ≡ drop result self.old }
        ensures within { result ≤ most }
        ensures inside { result ≤ length self.old }
        ensures some { 0 < most → 0 < length self.old → 0 < result }
    {
        let left = self.first.len() - self.taken;
        if most < left {
            self.taken += most;
            return most;
        }
        self.first = self.later.take_first();
        self.taken = 0;
        left
    }
}
