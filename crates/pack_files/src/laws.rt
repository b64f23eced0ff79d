//! Laws of further files, over their definitions alone. There is nothing to do when they run.

ghost use Rattle.std.specs.List.{AllByRecursion, Contains};
ghost use Rattle.std.specs.Prelude.{◌≡◌, ◌<◌, ◌≤◌, ◌-◌, ◌^◌, ◌++◌, ◌∷◌, [], ℕ, IsSome, List, None, Option, Some, length};
ghost use Rattle.tree_node.specs.Digests.{digest};
ghost use Rattle.node_pack.specs.Known.{IsPlaced};
ghost use Rattle.node_pack.specs.Packs.{HasChildren, IsPack, Kept, pack, place_in};
ghost use Rattle.node_pack.specs.Placed.{HasNodesAt};
ghost use Rattle.node_pack.specs.declared.place.Place.{Place};
ghost use Rattle.node_pack.specs.Further.{IsFurther, place_beside};
ghost use Rattle.pack_files.specs.Joined.{AreShort, joined};

/// The law of a pack that is the first file.
pub fn first_law()
    // Where it is the only one, it has its nodes at their places.
    ensures nodes { (root : List ℕ) (nodes : List Kept) → IsPack (pack root nodes) root nodes
        → HasNodesAt (joined (pack root nodes ∷ [])) (2 ^ 64 - 1) (place_in nodes) nodes }
    // The node with its root has a place there, from which a source can go on.
    ensures root { (root : List ℕ) (nodes : List Kept) → IsPack (pack root nodes) root nodes
        → IsPlaced (place_in nodes) (2 ^ 64 - 1) root }
    // It is no longer than a file may be.
    ensures short { (root : List ℕ) (nodes : List Kept) → IsPack (pack root nodes) root nodes
        → length (pack root nodes) ≤ 2 ^ 48 }
{}

/// The law of further files.
pub fn further_law()
    // Where files have nodes at their places, they and a further file have these and its own at the places beside one another.
    ensures nodes { (contents : List (List ℕ)) (old : List ℕ → Option Place)
        (olds nodes : List Kept) (file root : List ℕ)
        → AreShort contents → HasNodesAt (joined contents) (2 ^ 64 - 1) old olds
        → IsFurther file (length contents) old root nodes
        → HasNodesAt (joined (contents ++ file ∷ [])) (2 ^ 64 - 1)
        (place_beside (length contents) nodes old) (nodes ++ olds) }
    // The node with its root has a place there, from which a source can go on.
    ensures root { (number : ℕ) (old : List ℕ → Option Place) (nodes : List Kept)
        (file root : List ℕ) → number < 65535
        → IsFurther file number old root nodes
        → IsPlaced (place_beside number nodes old) (2 ^ 64 - 1) root }
    // It is no longer than a file may be.
    ensures short { (number : ℕ) (old : List ℕ → Option Place) (nodes : List Kept)
        (file root : List ℕ)
        → IsFurther file number old root nodes → length file ≤ 2 ^ 48 }
    // What is one by some of the old places is one by all of them, if no node of it has one.
    ensures over { (number : ℕ) (seen old : List ℕ → Option Place) (nodes : List Kept)
        (file root : List ℕ)
        → ((key : List ℕ) (place : Place) → seen key ≡ Some place → old key ≡ Some place)
        → AllByRecursion (λ kept. old (digest kept.bytes) ≡ None) nodes
        → IsFurther file number seen root nodes → IsFurther file number old root nodes }
{}

/// The law of fewer places: where bytes have nodes at places, they have those at fewer places, if with a node's place those of its
/// children are among the fewer ones.
pub fn fewer_law()
    ensures { (bytes : List ℕ) (limit : ℕ) (old fewer : List ℕ → Option Place) (nodes : List Kept)
        → ((key : List ℕ) (place : Place) → fewer key ≡ Some place → old key ≡ Some place)
        → ((kept : Kept) → Contains nodes kept → HasChildren kept.bytes kept.children
        → IsSome (fewer (digest kept.bytes))
        → AllByRecursion (λ child. IsSome (fewer child)) kept.children)
        → HasNodesAt bytes limit old nodes → HasNodesAt bytes limit fewer nodes }
{}
