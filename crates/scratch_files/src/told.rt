//! What a store of runs was told.

ghost use Rattle.std.specs.Borrow.{ftrue};
ghost use Rattle.std.specs.Prelude.{◌≡◌, ◌++◌, ◌∷◌, [], ℕ, List};

use std::marker::Model;

/// What a store of runs was told, which proofs alone read: no contract can see the bytes of a file. It takes no memory,
/// and its functions do nothing when they run.
#[derive(Drop)]
pub(crate) struct Told {
    pub(crate) ghost runs: { List (List ℕ) },
    pub(crate) ghost in_hand: { List ℕ },
}

impl Model for Told {
    ghost also_owns = { λ _. ftrue };
}

/// Bytes that a store is told.
#[derive(Clone, Copy)]
pub(crate) struct Piece<'a> {
    pub(crate) bytes: &'a [u8],
}

impl Told {
    /// Nothing was told.
    pub(crate) fn new() -> Told
        ensures { (result.runs ≡ []) × (result.in_hand ≡ []) }
    {
        Told {}
    }

    /// These bytes were told too, of the run in hand.
    pub(crate) fn and(_before: &Told, _piece: &Piece<'_>) -> Told
        ensures { (result.runs ≡ _before.now.runs)
            × (result.in_hand ≡ _before.now.in_hand ++ _piece.now.bytes.now) }
    {
        Told {}
    }

    /// It was told that the run in hand has ended.
    pub(crate) fn ended(_before: &Told) -> Told
        ensures { (result.runs ≡ _before.now.runs ++ _before.now.in_hand ∷ [])
            × (result.in_hand ≡ []) }
    {
        Told {}
    }
}
