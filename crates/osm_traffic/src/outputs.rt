//! What the connections have coming.

ghost use Rattle.std.specs.FinMap.{empty, get, insert, len, remove};
ghost use Rattle.std.specs.Prelude.{◌≡◌, ◌≤◌, IfSome, IfNone, OnOk, OnErr, Some, None, [], drop, length};

use crate::output::Output;
use std::alloc::{AllocError, Global};
use std::collections::BTreeMap;
use std::marker::Model;

/// What each connection has coming. Contracts see it as the bytes that its socket hasn't taken yet, by its number.
#[derive(Drop)]
pub(crate) struct Outputs {
    outputs: BTreeMap<u32, Output>,
}

impl Model for Outputs {
    ghost use Rattle.std.specs.Coded.{codes};
    ghost use Rattle.std.specs.FinMap.{FinMap, code, from_entries};
    ghost use Rattle.std.specs.Ordering.{nat_cmp};
    ghost use Rattle.std.specs.Prelude.{List, ℕ};

    ghost Value = { FinMap nat_cmp (List ℕ) };

    ghost coded = { Prim.hlevel (codes, code) };

    ghost view = { λ s. from_entries s.outputs.entries };
}

impl Outputs {
    /// None.
    pub(crate) fn new(alloc: Global) -> Outputs
        ensures { result ≡ empty }
    {
        Outputs {
            outputs: BTreeMap::new(alloc),
        }
    }

    /// Whether there is no connection.
    pub(crate) fn is_empty(&self) -> bool {
        self.outputs.is_empty()
    }

    /// How many connections there are.
    pub(crate) fn count(&self) -> usize
        ensures { result ≡ len self.now }
    {
        self.outputs.len()
    }

    /// Adds a connection that has nothing coming.
    pub(crate) fn add(&mut self, number: u32) -> Result<(), AllocError>
        ensures ok { OnOk result (self.new ≡ insert self.old number []) }
        ensures err { OnErr result (self.new ≡ self.old) }
    {
        let Ok(_) = self.outputs.insert(number, Output::new()) else {
            return Err(AllocError);
        };
        Ok(())
    }

    /// Forgets a connection.
    pub(crate) fn forget(&mut self, number: u32)
        ensures { self.new ≡ remove self.old number }
    {
        self.outputs.remove(&number);
    }

    /// The connection's output.
    pub(crate) fn output(&self, number: u32) -> Option<&Output>
        ensures some { IfSome result (λ output. get self.now number ≡ Some output.now) }
        ensures none { IfNone result (get self.now number ≡ None) }
    {
        self.outputs.get(&number)
    }

    /// Puts a output in place of what the connection has coming. One that isn't here stays away.
    pub(crate) fn put(&mut self, number: u32, output: Output)
        ensures { IfSome (get self.old number) (λ _. self.new ≡ insert self.old number output) }
    {
        let Some(place) = self.outputs.get_mut(&number) else {
            return;
        };
        place.become_output(output);
    }

    /// So many bytes of what the connection has coming were taken.
    pub(crate) fn advance(&mut self, number: u32, count: usize)
        requires { IfSome (get self.old number) (λ bytes. count ≤ length bytes) }
        ensures { IfSome (get self.old number) (λ bytes. self.new
            ≡ insert self.old number (drop count bytes)) }
    {
        let Some(output) = self.outputs.get_mut(&number) else {
            return;
        };
        output.advance(count);
    }
}
