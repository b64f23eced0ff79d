//! The rows of the cells of a box.

ghost use Rattle.std.specs.Prelude.{◌≤◌, unsigned_abs};
ghost use Rattle.osm_model.specs.Degrees.{limit};

use crate::grid::row;
use osm_model::Axis;

/// The rows from the first one, up to the end, which isn't one of them.
#[derive(Clone, Copy)]
pub(crate) struct Rows {
    pub(crate) first: u16,
    pub(crate) end: u16,
}

impl Rows {
    ghost use Rattle.osm_keys.specs.Ranges.{AreRows};
    ghost use Rattle.osm_keys.specs.internal.Cells.{rows_in};

    /// The rows from one latitude to another, in 1e-7 degree: none where the first is above the second.
    pub(crate) fn between(south: i32, north: i32) -> Rows
        requires south { unsigned_abs south ≤ limit Axis.Lat }
        requires north { unsigned_abs north ≤ limit Axis.Lat }
        ensures { AreRows south north (rows_in result) }
    {
        if north < south {
            return Rows { first: 0, end: 0 };
        }
        Rows {
            first: row(south),
            end: row(north) + 1,
        }
    }
}
