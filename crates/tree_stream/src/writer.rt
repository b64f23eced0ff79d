//! Where the nodes of a tree go.

use crate::fault::WriterFault;

/// Takes the nodes of a tree, each once, as they are made. The nodes of a level come in their order; those of different
/// levels come mixed, a node after all nodes below it.
pub trait NodeWriter {
    ghost use Rattle.std.specs.Prelude.{◌≡◌, ◌≢◌, ◌++◌, ◌∷◌, [], ℕ, List, OnOk};

    /// For each level, leaves being level 0, the bytes of the nodes that were put there so far, in order.
    ghost given: { Self → ℕ → List (List ℕ) };

    /// Takes the bytes of the next node of this level. What a refusal leaves is open.
    fn put(&mut self, level: u8, node: &[u8]) -> Result<(), WriterFault>
        // The level has gained this node at its end,
        ensures gained { OnOk result
            (given self.new level ≡ given self.old level ++ node.now ∷ []) }
        // and every other level is as it was.
        ensures others { OnOk result ((other : ℕ) → other ≢ level
            → given self.new other ≡ given self.old other) };
}
