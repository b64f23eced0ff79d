//! Laws of snapshots and of changes. There is nothing to do when they run.

ghost use Rattle.std.specs.List.{Contains};
ghost use Rattle.std.specs.Prelude.{◌≡◌, ◌++◌, List};
ghost use Rattle.osm_model.specs.Elements.{Element};
ghost use Rattle.osm_model.specs.declared.reference.Ref.{Ref};
ghost use Rattle.opl_codec.specs.declared.change.Change.{Change};
ghost use Rattle.tree_node.specs.Shelves.{SameNodes};
ghost use Rattle.tree_node.specs.Stocks.{HasNode};
ghost use Rattle.osm_index.specs.Applying.{IsApplied, names_of};
ghost use Rattle.osm_keys.specs.Publications.{Publication};
ghost use Rattle.osm_index.specs.Snapshots.{HoldsPublication};
ghost use Rattle.osm_index.specs.declared.snapshot.Snapshot.{Snapshot};

/// The law of changes: they make one set of a set, and what a snapshot holds then is what one that is built of that
/// set in that edition holds.
pub fn changes_law()
    ensures one { (old new other : List Element) (all : List Change) → IsApplied old all new
        → IsApplied old all other → new ≡ other }
    // The set after one list and then another is the set after both, where no object is named by both.
    ensures both { (old mid new : List Element) (first second : List Change)
        → IsApplied old first mid → IsApplied mid second new
        → ((r : Ref) → Contains (names_of first) r → ¬ Contains (names_of second) r)
        → IsApplied old (first ++ second) new }
    // Two snapshots of one set in one edition hold the same nodes and have one root.
    ensures snapshots { (a b : Snapshot) (p q : Publication) → HoldsPublication a p
        → HoldsPublication b q
        → p.objects ≡ q.objects → p.edition ≡ q.edition
        → SameNodes (HasNode a.stock) (HasNode b.stock) × (a.root.0 ≡ b.root.0) }
{}

/// The law of snapshots: what one holds is one set of objects in one edition, since no two different nodes of it have
/// one digest.
pub fn snapshot_law()
    ensures objects { (snapshot : Snapshot) (p q : Publication) → HoldsPublication snapshot p
        → HoldsPublication snapshot q
        → p.objects ≡ q.objects }
    ensures edition { (snapshot : Snapshot) (p q : Publication) → HoldsPublication snapshot p
        → HoldsPublication snapshot q
        → p.edition ≡ q.edition }
{}
