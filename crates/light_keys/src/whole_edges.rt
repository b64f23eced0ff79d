//! The edges of a box in whole units.

use osm_model::BoxArea;

/// Edges of a box, in 1e-7 degree.
#[derive(Clone, Copy)]
pub(crate) struct WholeEdges {
    pub(crate) south: i32,
    pub(crate) west: i32,
    pub(crate) north: i32,
    pub(crate) east: i32,
}

impl WholeEdges {
    ghost use Rattle.light_keys.specs.internal.FineCells.{AreWholeEdges};

    /// The edges of a box, rounded to whole units inside it.
    pub(crate) fn inside(area: &BoxArea<'_>) -> WholeEdges
        ensures { AreWholeEdges area.now result }
    {
        WholeEdges {
            south: area.south().ceiling_units(),
            west: area.west().ceiling_units(),
            north: area.north().floor_units(),
            east: area.east().floor_units(),
        }
    }
}
