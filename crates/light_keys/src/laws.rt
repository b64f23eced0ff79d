//! Laws of keys, ranges and manifests. There is nothing to do when they run.

ghost use Rattle.std.specs.Int.{w64};
ghost use Rattle.std.specs.List.{Contains};
ghost use Rattle.std.specs.Prelude.{◌≡◌, ◌≢◌, ◌↔◌, ◌<◌, ◌≤◌, ◌^◌, ℕ, ℤ, FitsSigned, List, Some, length, slice_get};
ghost use Rattle.osm_keys.specs.Manifests.{HaveWidth, manifest};
ghost use Rattle.osm_keys.specs.declared.edition.Edition.{Edition};
ghost use Rattle.osm_model.specs.Boxes.{ExactBox, Holds, Spans};
ghost use Rattle.osm_model.specs.Places.{IsPlace, Place};
ghost use Rattle.tree_node.specs.Order.{IsBelow};
ghost use Rattle.tree_node.specs.declared.tree.Tree.{Tree};
ghost use Rattle.tree_walk.specs.Ranges.{IsIn, Range};
ghost use Rattle.osm_keys.specs.FineKeys.{IsBefore, SaysFineCell, fine_cell_key, fine_cell_value, fine_row};
ghost use Rattle.osm_keys.specs.FineRanges.{AreFineRanges};
ghost use Rattle.light_keys.specs.LightManifests.{light_manifest};

/// The law of entries of fine cells: what is written is read back.
pub fn fine_entry_law()
    // The key and the value that are written for a node say that node, with the row of its place,
    ensures written { (place : Place) → IsPlace place → (id : ℤ) (line : List ℕ)
        → length line ≡ 32
        → SaysFineCell (fine_cell_key place id) (fine_cell_value place.lat line)
        (fine_row place.lat) place id line }
    // and a key and a value say one row, one place, one id and one digest at most.
    ensures one { (key value : List ℕ) (row other : ℕ) (p q : Place) (y z : ℤ)
        → (line another : List ℕ) → FitsSigned w64 y → FitsSigned w64 z
        → SaysFineCell key value row p y line → SaysFineCell key value other q z another
        → (row ≡ other) × (p ≡ q) × (y ≡ z) × (line ≡ another) }
{}

/// The law of the order of fine cells' keys: they rise by row, then by longitude, then by id.
pub fn fine_key_order_law()
    ensures { (p q : Place) (y z : ℤ) → IsPlace p → IsPlace q → FitsSigned w64 y
        → FitsSigned w64 z
        → IsBelow (fine_cell_key p y) (fine_cell_key q z) ↔ IsBefore p y q z }
{}

/// The law of the ranges of a box among fine cells. They take in the key of each place that the box holds, each key once
/// at most, and beyond those only places at longitudes of the box in its first and its last row: so of a place that is
/// found there the caller tests the latitude.
pub fn fine_cell_law()
    // The key of a place that the box holds is in one of its ranges,
    ensures held { (b : ExactBox) (ranges : List Range) → AreFineRanges b ranges
        → (place : Place) → IsPlace place → Holds b place → (id : ℤ)
        → (range : Range) × Contains ranges range × IsIn range (fine_cell_key place id) }
    // and no key, of a place or not, is in two.
    ensures once { (b : ExactBox) (ranges : List Range) → AreFineRanges b ranges
        → (key : List ℕ) (k j : ℕ) (x y : Range) → slice_get ranges k ≡ Some x
        → slice_get ranges j ≡ Some y → IsIn x key → IsIn y key → k ≡ j }
    // A place whose key is in one of the ranges lies at a longitude of the box, in one of its rows,
    ensures spans { (b : ExactBox) (ranges : List Range) (are : AreFineRanges b ranges)
        → (place : Place) → IsPlace place → (id : ℤ) (range : Range) → Contains ranges range
        → IsIn range (fine_cell_key place id)
        → Spans b.west.value b.east.value place.lon
        × (fine_row are.south ≤ fine_row place.lat) × (fine_row place.lat ≤ fine_row are.north) }
    // and but for the first and the last row the box holds it.
    ensures inner { (b : ExactBox) (ranges : List Range) (are : AreFineRanges b ranges)
        → (place : Place) → IsPlace place → (id : ℤ) (range : Range) → Contains ranges range
        → IsIn range (fine_cell_key place id)
        → fine_row are.south < fine_row place.lat → fine_row place.lat < fine_row are.north
        → Holds b place }
    // There are two ranges for each row of the earth at most.
    ensures few { (b : ExactBox) (ranges : List Range) → AreFineRanges b ranges
        → length ranges ≤ 36002 }
{}

/// The law of manifests: their bytes determine the sequence and the four tops, and are no manifest of `osm_keys`.
pub fn light_manifest_law()
    ensures sequence { (sequence other : ℕ) (tops others : Tree → List ℕ) → sequence < 2 ^ 64
        → other < 2 ^ 64
        → light_manifest sequence tops ≡ light_manifest other others → sequence ≡ other }
    ensures tops { (sequence other : ℕ) (tops others : Tree → List ℕ) → HaveWidth tops
        → HaveWidth others
        → light_manifest sequence tops ≡ light_manifest other others
        → (tree : Tree) → tops tree ≡ others tree }
    ensures apart { (sequence : ℕ) (edition : Edition) (tops others : Tree → List ℕ)
        → light_manifest sequence tops ≢ manifest edition others }
{}
