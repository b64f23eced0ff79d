//! Laws of publications whose lines are nodes. There is nothing to do when they run.

ghost use Rattle.std.specs.List.{AllByRecursion};
ghost use Rattle.std.specs.Prelude.{◌≡◌, ◌≢◌, ◌⊎◌, ◌<◌, ◌^◌, ℕ, List};
ghost use Rattle.light_index.specs.LightPublications.{HasTooManyLight, IsLightPublication, IsLightPublicationOf, LightPublication, light_root_of, light_top_in};
ghost use Rattle.light_index.specs.LightSnapshots.{HoldsLightPublication};
ghost use Rattle.light_index.specs.declared.light_snapshot.LightSnapshot.{LightSnapshot};
ghost use Rattle.light_keys.specs.LightManifests.{light_manifest};
ghost use Rattle.osm_model.specs.CanonicalLine.{canonical_line};
ghost use Rattle.osm_model.specs.Elements.{Element};
ghost use Rattle.osm_model.specs.Sets.{IsObjectSet};
ghost use Rattle.tree_node.specs.NodeRefs.{number_of};
ghost use Rattle.tree_node.specs.Nodes.{AreBytes, Binding};
ghost use Rattle.tree_node.specs.Shelves.{SameNodes};
ghost use Rattle.tree_node.specs.Stocks.{HasNode};
ghost use Rattle.tree_node.specs.Trees.{HasTree, IsNodeOf, Shape, Two, levels};
ghost use Rattle.tree_node.specs.declared.tree.Tree.{Tree};
ghost use Rattle.tree_walk.specs.Walks.{IsTopOf};

/// The law of publications: a set of objects has one at a sequence, and so one root.
pub fn light_publication_law()
    ensures entries { (p q : LightPublication) → IsLightPublication p → IsLightPublication q
        → p.objects ≡ q.objects
        → (tree : Tree) → p.entries tree ≡ q.entries tree }
    ensures root { (p q : LightPublication) → IsLightPublication p → IsLightPublication q
        → p.objects ≡ q.objects
        → p.sequence ≡ q.sequence → light_root_of p ≡ light_root_of q }
    // A set that has a publication has no tree with too many entries,
    ensures few { (objects : List Element) (sequence : ℕ) (p : LightPublication)
        → IsLightPublicationOf objects sequence p → ¬ HasTooManyLight objects }
    // and one that has no such tree has a publication at each sequence.
    ensures some { (objects : List Element) → IsObjectSet objects
        → (sequence : ℕ) → sequence < 2 ^ 64
        → HasTooManyLight objects ⊎ ((p : LightPublication)
        × IsLightPublicationOf objects sequence p) }
    // Each list of entries has a tree.
    ensures trees { (p : LightPublication) → IsLightPublication p
        → (tree : Tree) → HasTree (p.entries tree) }
{}

/// The law of entries: their keys are bytes. So what walks and counts ask of a tree holds of each tree of a
/// publication.
pub fn light_entries_are_bytes()
    ensures keys { (p : LightPublication) → IsLightPublication p → (tree : Tree)
        → AllByRecursion (λ (entry : Binding). AreBytes entry.key) (p.entries tree) }
    // The digest of a tree's top is one that a walk may begin with.
    ensures tops { (p : LightPublication) → IsLightPublication p → (tree : Tree)
        → IsTopOf Two (number_of tree) (p.entries tree) (light_top_in p tree) }
{}

/// The law of the three sorts of nodes: no bytes are of two sorts. A line begins with the letter of its object's kind
/// (110, 114 or 119), a node of a tree with the number of the tree (1 to 4), a manifest with 79.
pub fn light_nodes_law()
    ensures line_tree { (o : Element) (shape : Shape) (tree : Tree) (entries : List Binding)
        → ¬ IsNodeOf (levels shape (number_of tree) entries) (canonical_line o) }
    ensures line_manifest { (o : Element) (sequence : ℕ) (tops : Tree → List ℕ)
        → canonical_line o ≢ light_manifest sequence tops }
    ensures tree_manifest { (shape : Shape) (tree : Tree) (entries : List Binding)
        → (sequence : ℕ) (tops : Tree → List ℕ)
        → ¬ IsNodeOf (levels shape (number_of tree) entries) (light_manifest sequence tops) }
{}

/// The law of snapshots: what one holds is one set of objects at one sequence, since no two different nodes of it have
/// one digest.
pub fn light_snapshot_law()
    ensures objects { (snapshot : LightSnapshot) (p q : LightPublication)
        → HoldsLightPublication snapshot p → HoldsLightPublication snapshot q
        → p.objects ≡ q.objects }
    ensures sequence { (snapshot : LightSnapshot) (p q : LightPublication)
        → HoldsLightPublication snapshot p → HoldsLightPublication snapshot q
        → p.sequence ≡ q.sequence }
    // Two snapshots of one set at one sequence hold the same nodes and have one root.
    ensures snapshots { (a b : LightSnapshot) (p q : LightPublication)
        → HoldsLightPublication a p → HoldsLightPublication b q
        → p.objects ≡ q.objects → p.sequence ≡ q.sequence
        → SameNodes (HasNode a.stock) (HasNode b.stock) × (a.root.0 ≡ b.root.0) }
{}
