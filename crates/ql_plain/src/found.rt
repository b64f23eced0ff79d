//! What a recursion has found so far.

ghost use Rattle.std.specs.Prelude.{◌≡◌, [], OnOk};
ghost use Rattle.std.specs.List.Sorted.{IsSortedByKey};
ghost use Rattle.osm_model.specs.Elements.{ref_cmp};
ghost use Rattle.ql_plain.specs.internal.Founds.{AddsName, Follows, IsClosure, IsTold};

use crate::step::{Step, steps_from};
use osm_model::Ref;
use std::alloc::{AllocError, Global};
use std::collections::BTreeSet;

/// References that were found, each once, in the order of their finding.
#[derive(Drop)]
pub(crate) struct Found {
    /// All of them, to tell whether one is new.
    pub(crate) seen: BTreeSet<Ref>,
    /// All of them, in order.
    pub(crate) refs: Vec<Ref>,
}

impl Found {
    /// Nothing is found yet.
    pub(crate) fn new(alloc: Global) -> Found
        ensures told { IsTold result }
        ensures empty { result.refs.items ≡ [] }
    {
        Found {
            seen: BTreeSet::new(alloc),
            refs: Vec::new(alloc),
        }
    }

    /// Adds what the steps from a reference lead to.
    pub(crate) fn follow(&mut self, steps: &[Step], name: Ref) -> Result<(), AllocError>
        requires told { IsTold self.old }
        requires sorted { IsSortedByKey (λ step. step.from) ref_cmp steps.now }
        ensures told { OnOk result (IsTold self.new) }
        ensures follows { OnOk result (Follows steps.now name self.old.refs.items self.new.refs.items) }
    {
        let onward = steps_from(steps, name);
        for step in onward {
            self.add(step.to)?;
        }
        Ok(())
    }

    /// Adds what further steps lead to from what was found, until nothing is added. Each reference is
    /// followed once.
    pub(crate) fn follow_found(&mut self, steps: &[Step]) -> Result<(), AllocError>
        requires told { IsTold self.old }
        requires sorted { IsSortedByKey (λ step. step.from) ref_cmp steps.now }
        ensures { OnOk result (IsClosure steps.now self.old.refs.items self.new.refs.items) }
    {
        let mut at = 0;
        while at < self.refs.len() {
            let name = self.refs[at];
            self.follow(steps, name)?;
            at += 1;
        }
        Ok(())
    }

    /// Adds a reference, where it is new.
    pub(crate) fn add(&mut self, name: Ref) -> Result<(), AllocError>
        requires { IsTold self.old }
        ensures told { OnOk result (IsTold self.new) }
        ensures added { OnOk result (AddsName name self.old.refs.items self.new.refs.items) }
    {
        if self.seen.insert(name)? {
            self.refs.push(name)?;
        }
        Ok(())
    }
}
