//! The columns of the cells of a box.

ghost use Rattle.std.specs.Prelude.{◌≡◌, [], ◌∷◌, ◌⊎◌, ◌≤◌, ◌≤ℤ◌, ◌<ℤ◌, unsigned_abs};
ghost use Rattle.osm_model.specs.Degrees.{limit};
ghost use Rattle.osm_keys.specs.Keys.{column, last_column};

use crate::column_span::ColumnSpan;
use crate::grid::{LAST_COLUMN, column};
use osm_model::Axis;

/// The columns of a box, the same in each row.
#[derive(Clone, Copy)]
pub(crate) enum Columns {
    None,
    One(ColumnSpan),
    Two(ColumnSpan, ColumnSpan),
}

impl Columns {
    ghost use Rattle.osm_keys.specs.internal.Cells.{columns_in};

    /// The columns from one longitude to another, in 1e-7 degree: none where the first is above the second.
    pub(crate) fn between(west: i32, east: i32) -> Columns
        requires west { unsigned_abs west ≤ limit Axis.Lon }
        requires east { unsigned_abs east ≤ limit Axis.Lon }
        ensures { ((east <ℤ west) × (columns_in result ≡ []))
            ⊎ ((west ≤ℤ east) × (columns_in result ≡ (column west, column east) ∷ [])) }
    {
        if east < west {
            return Columns::None;
        }
        Columns::One(ColumnSpan {
            first: column(west),
            last: column(east),
        })
    }

    /// The columns from one longitude over the 180th meridian to another, in 1e-7 degree.
    pub(crate) fn around(west: i32, east: i32) -> Columns
        requires west { unsigned_abs west ≤ limit Axis.Lon }
        requires east { unsigned_abs east ≤ limit Axis.Lon }
        ensures { columns_in result ≡ (column west, last_column) ∷ (0, column east) ∷ [] }
    {
        let to_meridian = ColumnSpan {
            first: column(west),
            last: LAST_COLUMN,
        };
        let from_meridian = ColumnSpan {
            first: 0,
            last: column(east),
        };
        Columns::Two(to_meridian, from_meridian)
    }
}
