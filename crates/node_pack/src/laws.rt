//! Laws of hints, of the header and of the limits, over their definitions alone. There is nothing to do when they run.

ghost use Rattle.std.specs.Prelude.{◌≡◌, ◌≢◌, ◌*◌, ◌+◌, ◌^◌, IfSome, List, Option, true, ℕ};
ghost use Rattle.tree_node.specs.Nodes.{Link};
ghost use Rattle.tree_walk.specs.Given.{IsEntered, IsNever};
ghost use Rattle.tree_walk.specs.Ranges.{Range};
ghost use Rattle.node_pack.specs.Hints.{Announcement, IsLedChild};
ghost use Rattle.node_pack.specs.declared.ahead.TheConstants.{INNER_BYTES, INNER_LIMIT, LEVELS, LEVEL_NODES};
ghost use Rattle.node_pack.specs.declared.announced.TheConstants.{HINT_BYTES, HINT_MORE};
ghost use Rattle.node_pack.specs.declared.gather.TheConstants.{DEPTH_LIMIT};
ghost use Rattle.node_pack.specs.declared.header.TheConstants.{FURTHER_VERSION, HEADER_LEN, MAGIC, VERSION};
ghost use Rattle.node_pack.specs.declared.learn.TheConstants.{FILE_LIMIT};
ghost use Rattle.node_pack.specs.declared.record.TheConstants.{RECORD_MORE};

/// The law of hints: what they lead to is what a walk asks for.
pub fn hint_law()
    // Each child that a walk over a range enters is one that a hint of the range leads to, unless the child's left bound is just
    // the range's greatest key. It isn't where the range goes no further than that key, nor where no key of the tree is that key.
    ensures entered { (top : List ℕ) (range : Range) (child : Option (List ℕ) × Link)
        → IsEntered IsNever range child → IfSome child.0 (λ bound. bound ≢ range.hi)
        → IsLedChild (record { top = top; lo = range.lo; hi = range.hi }) child }
    // A hint leads to no child but those that a walk enters which goes on to all keys that begin with the greatest key.
    ensures led { (hint : Announcement) (child : Option (List ℕ) × Link) → IsLedChild hint child
        → IsEntered IsNever (record { lo = hint.lo; hi = hint.hi; under = true }) child }
{}

/// A law: the header's constants, as numbers. The first is `OSMK`, with the greatest byte first.
pub fn header_law()
    ensures magic { MAGIC ≡ 1330859339 }
    ensures version { VERSION ≡ 65536 }
    ensures further { FURTHER_VERSION ≡ 2 * 65536 }
    ensures bytes { HEADER_LEN ≡ 60 }
{}

/// A law: the limits of packs and of hints, as numbers.
pub fn limits_law()
    // The hints before a call count 1 MiB at most, each 128 bytes beside its keys.
    ensures hints { HINT_BYTES ≡ 2 ^ 20 }
    ensures hint { HINT_MORE ≡ 128 }
    // For them 64 levels are gone down at most.
    ensures levels { LEVELS ≡ 64 }
    // Where 65,536 nodes of a level are known to be wanted, the children of no further node are looked at.
    ensures level { LEVEL_NODES ≡ 2 ^ 16 }
    // At most 64 MiB of nodes are read that aren't known to be leaves,
    ensures ahead { INNER_BYTES ≡ 64 * 2 ^ 20 }
    // of each as much as an inner node may have: 4 bytes, and 64 keys of 8,203 bytes, each with its length, a digest and a number.
    ensures inner { INNER_LIMIT ≡ 4 + 64 * (2 + 8203 + 32 + 8) }
    // A record has, beside its node, the node's length and 64 places at most.
    ensures more { RECORD_MORE ≡ 4 + 64 * 12 }
    // An offset in this file is below 2^48.
    ensures offsets { FILE_LIMIT ≡ 2 ^ 48 }
    // A manifest and the nodes of 64 levels stand one below the other at most.
    ensures depth { DEPTH_LIMIT ≡ 1 + 64 }
{}
