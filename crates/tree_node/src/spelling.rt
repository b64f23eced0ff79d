//! The law of the form of a node's bytes.

ghost use Rattle.std.specs.Prelude.{◌≡◌, ◌⊎◌, ℕ, List};
ghost use Rattle.tree_node.specs.Faults.{IsFault};
ghost use Rattle.tree_node.specs.Nodes.{AreBytes, IsNode, Node, Spells, spelling};
ghost use Rattle.tree_node.specs.declared.fault.NodeFault.{NodeFault};

/// The law of the form of a node's bytes: each byte string is either exactly one node or refused for exactly one fault,
/// and no two nodes have the same bytes. Together with the contracts of `write_leaf`, `write_inner` and `NodeRef::read`:
/// what was written reads back, and as nothing else. A call does nothing at run time.
pub fn spelling_law()
    // Two nodes that one byte string spells are equal.
    ensures unique { (bytes : List ℕ) (n m : Node) → Spells bytes n → Spells bytes m → n ≡ m }
    // Two nodes that are written alike are equal.
    ensures injective { (n m : Node) → IsNode n → IsNode m → spelling n ≡ spelling m → n ≡ m }
    // Bytes are a node or at fault,
    ensures decided { (bytes : List ℕ) → AreBytes bytes
        → ((n : Node) × Spells bytes n) ⊎ ((fault : NodeFault) × IsFault bytes fault) }
    // not both,
    ensures apart { (bytes : List ℕ) (n : Node) (fault : NodeFault) → AreBytes bytes
        → Spells bytes n → IsFault bytes fault → ⊥ }
    // and for one fault alone.
    ensures one_fault { (bytes : List ℕ) (fault other : NodeFault) → AreBytes bytes
        → IsFault bytes fault → IsFault bytes other → fault ≡ other }
{}
