//! What a tree was given.

ghost use Rattle.std.specs.Borrow.{ftrue};
ghost use Rattle.std.specs.Prelude.{◌≡◌, ◌++◌, ◌∷◌, [], ℕ, List};

use std::marker::Model;

/// The keys and values that a tree was given, in order, which proofs alone read: no contract can see them in the nodes that
/// were written. It takes no memory, and its functions do nothing when they run.
#[derive(Drop)]
pub(crate) struct Taken {
    pub(crate) ghost pairs: { List (List ℕ × List ℕ) },
}

impl Model for Taken {
    ghost also_owns = { λ _. ftrue };
}

/// An entry that a tree is given.
#[derive(Clone, Copy)]
pub(crate) struct Given<'a> {
    pub(crate) key: &'a [u8],
    pub(crate) value: &'a [u8],
}

impl Taken {
    /// Nothing was given.
    pub(crate) fn new() -> Taken
        ensures { result.pairs ≡ [] }
    {
        Taken {}
    }

    /// This entry was given too.
    pub(crate) fn and(_before: &Taken, _given: &Given<'_>) -> Taken
        ensures { result.pairs
            ≡ _before.now.pairs ++ (_given.now.key.now, _given.now.value.now) ∷ [] }
    {
        Taken {}
    }
}
