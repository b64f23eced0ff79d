//! How much walks did.

ghost use Rattle.std.specs.Prelude.{◌≡◌};
ghost use Rattle.tree_walk.specs.Fetches.{counted_up};

/// How many walks and fetches there were. Both counts saturate.
#[derive(Clone, Copy, Debug, Default, PartialEq, Eq)]
pub struct Tally {
    /// How many walks were begun.
    pub calls: u64,
    /// How many nodes the shelf gave them, those that they refused too.
    pub fetches: u64,
}

impl Tally {
    /// Counts one walk.
    pub(crate) fn count_call(&mut self)
        ensures calls { self.new.calls ≡ counted_up self.old.calls 1 }
        ensures fetches { self.new.fetches ≡ self.old.fetches }
    {
        self.calls = self.calls.saturating_add(1);
    }

    /// Counts one fetched node.
    pub(crate) fn count_fetch(&mut self)
        ensures fetches { self.new.fetches ≡ counted_up self.old.fetches 1 }
        ensures calls { self.new.calls ≡ self.old.calls }
    {
        self.fetches = self.fetches.saturating_add(1);
    }
}
