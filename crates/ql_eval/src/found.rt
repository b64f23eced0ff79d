//! References in the order of their finding.

ghost use Rattle.std.specs.Prelude.{◌≡◌, [], OnOk};
ghost use Rattle.ql_eval.specs.internal.Affording.{AreApart};
ghost use Rattle.ql_eval.specs.internal.Founds.{AddsName, IsConsistent};

use osm_model::Ref;
use std::alloc::{AllocError, Global};
use std::collections::BTreeSet;

/// References that were found, each once, in the order of their finding.
#[derive(Drop)]
pub(crate) struct Found {
    /// All of them, to tell whether one is new.
    pub(crate) seen: BTreeSet<Ref>,
    /// All of them, in order.
    pub(crate) refs: Vec<Ref>,
}

impl Found {
    /// Nothing is found yet.
    pub(crate) fn new(alloc: Global) -> Found
        ensures consistent { IsConsistent result }
        ensures empty { result.refs.items ≡ [] }
    {
        Found {
            seen: BTreeSet::new(alloc),
            refs: Vec::new(alloc),
        }
    }

    /// Adds a reference, where it is new.
    pub(crate) fn add(&mut self, name: Ref) -> Result<(), AllocError>
        requires { IsConsistent self.old }
        ensures consistent { OnOk result (IsConsistent self.new) }
        ensures added { OnOk result (AddsName name self.old.refs.items self.new.refs.items) }
        ensures apart { OnOk result (AreApart self.old.refs.items → AreApart self.new.refs.items) }
    {
        if self.seen.insert(name)? {
            self.refs.push(name)?;
        }
        Ok(())
    }
}
