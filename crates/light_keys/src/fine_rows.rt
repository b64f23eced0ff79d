//! The rows of the fine cells of a box.

ghost use Rattle.std.specs.Prelude.{◌≤◌, unsigned_abs};
ghost use Rattle.osm_model.specs.Degrees.{limit};

use crate::fine_grid::fine_row;
use osm_model::Axis;

/// The rows from the first one, up to the end, which isn't one of them.
#[derive(Clone, Copy)]
pub(crate) struct FineRows {
    pub(crate) first: u16,
    pub(crate) end: u16,
}

impl FineRows {
    ghost use Rattle.osm_keys.specs.FineRanges.{AreFineRows};
    ghost use Rattle.light_keys.specs.internal.FineCells.{rows_in};

    /// The rows from one latitude to another, in 1e-7 degree: none where the first is above the second.
    pub(crate) fn between(south: i32, north: i32) -> FineRows
        requires south { unsigned_abs south ≤ limit Axis.Lat }
        requires north { unsigned_abs north ≤ limit Axis.Lat }
        ensures { AreFineRows south north (rows_in result) }
    {
        if north < south {
            return FineRows { first: 0, end: 0 };
        }
        FineRows {
            first: fine_row(south),
            end: fine_row(north) + 1,
        }
    }
}
