//! The key that came last.

ghost use Rattle.std.specs.Prelude.{◌≡◌, IfOk, None};
ghost use Rattle.entry_sort.specs.internal.Once.{is_new, key_after};

use std::alloc::{AllocError, Global};
use std::marker::Model;
use tree_node::is_below;

/// The key that came last, none before the first. Contracts see that key.
#[derive(Drop)]
pub(crate) struct LastKey {
    key: Vec<u8>,
    is_there: bool,
}

impl Model for LastKey {
    ghost use Rattle.std.specs.Prelude.{ℕ, List, Option, Some, None, cond};

    ghost Value = { Option (List ℕ) };

    ghost view = { λ k. cond k.is_there (Some k.key.items) None };
}

impl LastKey {
    /// No key came yet. It takes no memory.
    pub(crate) fn new(alloc: Global) -> LastKey
        ensures { result ≡ None }
    {
        LastKey {
            key: Vec::new(alloc),
            is_there: false,
        }
    }

    /// Whether the key is above the last one, and so is the last one from now on.
    pub(crate) fn rise(&mut self, key: &[u8]) -> Result<bool, AllocError>
        ensures new { IfOk result (λ above. above ≡ is_new self.old key.now) }
        ensures key { IfOk result (λ _. self.new ≡ key_after self.old key.now) }
    {
        if self.is_there && !is_below(&self.key, key) {
            return Ok(false);
        }
        self.key.clear();
        self.key.extend_from_slice(key)?;
        self.is_there = true;
        Ok(true)
    }
}
