//! Laws of publications: what the ranges of keys find in the trees of a set of objects. There is nothing
//! to do when they run.

ghost use Rattle.std.specs.Int.{w64};
ghost use Rattle.std.specs.List.{AllByRecursion, Contains};
ghost use Rattle.std.specs.Prelude.{◌≡◌, ◌↔◌, ◌⊎◌, ◌<◌, ◌≤◌, ℕ, FitsSigned, List, None, Option, Some, length, slice_get};
ghost use Rattle.std.specs.declared.cmp.Ordering.TheVariants.{Less};
ghost use Rattle.osm_model.specs.Boxes.{ExactBox, Holds};
ghost use Rattle.osm_model.specs.Edges.{IsGreater};
ghost use Rattle.osm_model.specs.Elements.{Element, kind_of, ref_cmp, reference};
ghost use Rattle.osm_model.specs.Limits.{HasNoNul};
ghost use Rattle.osm_model.specs.Tagged.{HasTag};
ghost use Rattle.osm_model.specs.Membership.{BodyLists};
ghost use Rattle.osm_model.specs.Places.{Place};
ghost use Rattle.osm_model.specs.Sets.{object_at};
ghost use Rattle.osm_model.specs.declared.body.Body.TheVariants as bodies;
ghost use Rattle.osm_model.specs.declared.kind.Kind.{Kind};
ghost use Rattle.osm_model.specs.declared.reference.Ref.{Ref};
ghost use Rattle.tree_node.specs.NodeRefs.{number_of};
ghost use Rattle.tree_node.specs.Nodes.{AreBytes, AreRisingFrom, Binding, keys_of};
ghost use Rattle.tree_node.specs.Order.{IsBelow};
ghost use Rattle.tree_node.specs.Trees.{HasTree};
ghost use Rattle.tree_node.specs.declared.tree.Tree.TheVariants.{Objects, Tags, Cells, Backs};
ghost use Rattle.tree_node.specs.declared.tree.Tree.{Tree};
ghost use Rattle.tree_walk.specs.Choices.{AreThose};
ghost use Rattle.tree_walk.specs.Ranges.{IsIn, Range};
ghost use Rattle.tree_walk.specs.Walks.{IsEntryIn, IsTopOf};
ghost use Rattle.osm_keys.specs.Entries.{back_entry, cell_entry, object_entry, placed_key, tag_entry};
ghost use Rattle.osm_keys.specs.Grains.{grain_of};
ghost use Rattle.osm_keys.specs.Keys.{cell_key, column, ref_key};
ghost use Rattle.osm_keys.specs.Manifests.{HasSequence, HaveWidth, manifest};
ghost use Rattle.osm_keys.specs.Publications.{HasTooMany, IsPublication, IsPublicationOf, Publication, root_of, shape_in, shape_of, top_in};
ghost use Rattle.osm_keys.specs.Ranges.{AreCellRanges, IsKindOf, back_range, kind_range, object_range, tag_key_range, tag_range};
ghost use Rattle.osm_keys.specs.declared.edition.Edition.{Edition};

/// The law of publications: a set of objects has one in an edition, and so one root.
pub fn publication_law()
    ensures entries { (p q : Publication) → IsPublication p → IsPublication q
        → p.objects ≡ q.objects
        → (tree : Tree) → p.entries tree ≡ q.entries tree }
    ensures root { (p q : Publication) → IsPublication p → IsPublication q → p.objects ≡ q.objects
        → p.edition ≡ q.edition → root_of p ≡ root_of q }
    // A set that has a publication has no tree with too many entries,
    ensures few { (objects : List Element) (edition : Edition) (p : Publication)
        → IsPublicationOf objects edition p → ¬ HasTooMany objects }
    // and each list of entries has a tree.
    ensures trees { (p : Publication) → IsPublication p → (tree : Tree) → HasTree (p.entries tree) }
{}

/// The law of manifests: their bytes determine the four tops, the shape of the trees, and the edition with
/// its sequence.
pub fn manifest_law()
    ensures tops { (edition other : Edition) (tops others : Tree → List ℕ) → HaveWidth tops
        → HaveWidth others
        → manifest edition tops ≡ manifest other others → (tree : Tree) → tops tree ≡ others tree }
    ensures shape { (edition other : Edition) (tops others : Tree → List ℕ)
        → manifest edition tops ≡ manifest other others → shape_of edition ≡ shape_of other }
    ensures edition { (edition other : Edition) (tops others : Tree → List ℕ) → HasSequence edition
        → HasSequence other
        → manifest edition tops ≡ manifest other others → edition ≡ other }
{}

/// The law of the order of references: their keys rise as they do, by kind and then by id.
pub fn key_order_law()
    ensures { (r s : Ref) → FitsSigned w64 r.id → FitsSigned w64 s.id → (ref_cmp r s ≡ Less)
        ↔ IsBelow (ref_key r) (ref_key s) }
{}

/// The law of the range of one object: it finds that object's entry, where the object is in the set.
pub fn object_law()
    ensures { (p : Publication) → IsPublication p → (r : Ref) → FitsSigned w64 r.id
        → (found : List Binding)
        → AreThose (IsEntryIn (object_range r)) (p.entries Objects) found
        → (b : Binding) → Contains found b ↔ ((o : Element) × (object_at p.objects r ≡ Some o)
        × (b ≡ object_entry (grain_of p.edition) o)) }
{}

/// The law of the range of a kind: it finds just the entries of the objects of that kind, by rising id.
pub fn kind_law()
    ensures found { (p : Publication) → IsPublication p → (kind : Kind) (found : List Binding)
        → AreThose (IsEntryIn (kind_range kind)) (p.entries Objects) found
        → (b : Binding) → Contains found b ↔ ((o : Element) × Contains p.objects o
        × (kind_of o.body ≡ kind) × (b ≡ object_entry (grain_of p.edition) o)) }
    // Their keys rise, and so do their references (`key_order_law`).
    ensures rising { (p : Publication) → IsPublication p → (kind : Kind) (found : List Binding)
        → AreThose (IsEntryIn (kind_range kind)) (p.entries Objects) found
        → AreRisingFrom None (keys_of found) }
{}

/// The law of a tag range: it finds just the objects of the kind that have the tag. Key and value have no
/// NUL, as those of objects.
pub fn tag_law()
    ensures { (p : Publication) → IsPublication p → (key value : List ℕ) → HasNoNul key
        → HasNoNul value
        → (kind : Option Kind) (found : List Binding)
        → AreThose (IsEntryIn (tag_range key value kind)) (p.entries Tags) found
        → (b : Binding) → Contains found b ↔ ((o : Element) × Contains p.objects o
        × IsKindOf kind (reference o)
        × HasTag o key value × (b ≡ tag_entry (grain_of p.edition) key value o)) }
{}

/// The law of the range of a tag's key: it finds just the objects that have a tag with that key. The key
/// has no NUL, as those of objects.
pub fn tag_key_law()
    ensures { (p : Publication) → IsPublication p → (key : List ℕ) → HasNoNul key
        → (found : List Binding)
        → AreThose (IsEntryIn (tag_key_range key)) (p.entries Tags) found
        → (b : Binding) → Contains found b ↔ ((o : Element) × (value : List ℕ)
        × Contains p.objects o × HasNoNul value
        × HasTag o key value × (b ≡ tag_entry (grain_of p.edition) key value o)) }
{}

/// The law of the ranges of a box's cells. They find nodes of the map: all that the box holds, and perhaps
/// others in the same cells, so the caller tests each location. A node that the box holds is in one range
/// of the list, and only in one. The exception is a box that crosses the 180th meridian and whose western
/// and eastern edges, in whole units, lie in one column of cells: both ranges of a row have that column's
/// cell, so a node there is found twice.
pub fn cell_law()
    // A range finds just the entries of the nodes whose keys are in it.
    ensures found { (p : Publication) → IsPublication p → (range : Range) (found : List Binding)
        → AreThose (IsEntryIn range) (p.entries Cells) found
        → (entry : Binding) → Contains found entry ↔ ((o : Element) × (place : Place)
        × Contains p.objects o
        × (o.body ≡ bodies.Node place)
        × IsIn range (placed_key (grain_of p.edition) place o.id)
        × (entry ≡ cell_entry (grain_of p.edition) place o)) }
    // A node that the box holds is in one of its ranges,
    ensures held { (p : Publication) → IsPublication p → (b : ExactBox) (ranges : List Range)
        → AreCellRanges b ranges
        → (o : Element) → Contains p.objects o → (place : Place) → o.body ≡ bodies.Node place
        → Holds b place
        → (range : Range) × Contains ranges range × IsIn range (cell_key place o.id) }
    // and a node is in one at most, unless a cell is in two.
    ensures once { (p : Publication) → IsPublication p
        → (b : ExactBox) (ranges : List Range) (are : AreCellRanges b ranges)
        → (o : Element) → Contains p.objects o → (place : Place) → o.body ≡ bodies.Node place
        → (¬ IsGreater b.west.value b.east.value) ⊎ (column are.east < column are.west)
        → (k j : ℕ) (x y : Range) → slice_get ranges k ≡ Some x → slice_get ranges j ≡ Some y
        → IsIn x (cell_key place o.id) → IsIn y (cell_key place o.id) → k ≡ j }
    // There are two ranges for each row of the earth at most.
    ensures few { (b : ExactBox) (ranges : List Range) → AreCellRanges b ranges
        → length ranges ≤ 3602 }
{}

/// The law of a back range: it finds just the objects of the kind that list the target, which needn't be
/// in the set.
pub fn back_law()
    ensures { (p : Publication) → IsPublication p → (target : Ref) → FitsSigned w64 target.id
        → (kind : Option Kind) (found : List Binding)
        → AreThose (IsEntryIn (back_range target kind)) (p.entries Backs) found
        → (b : Binding) → Contains found b ↔ ((o : Element) × Contains p.objects o
        × IsKindOf kind (reference o)
        × BodyLists o.body target × (b ≡ back_entry (grain_of p.edition) target o)) }
{}

/// The law of entries: their keys and their values are bytes. So what walks and counts ask of a tree holds
/// of each tree of a publication.
pub fn entries_are_bytes()
    ensures keys { (p : Publication) → IsPublication p → (tree : Tree)
        → AllByRecursion (λ (entry : Binding). AreBytes entry.key) (p.entries tree) }
    ensures values { (p : Publication) → IsPublication p → (tree : Tree)
        → AllByRecursion (λ (entry : Binding). AreBytes entry.value) (p.entries tree) }
    // The digest of a tree's top is one that a walk may begin with.
    ensures tops { (p : Publication) → IsPublication p → (tree : Tree)
        → IsTopOf (shape_in p) (number_of tree) (p.entries tree) (top_in p tree) }
{}
