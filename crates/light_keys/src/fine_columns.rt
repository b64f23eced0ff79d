//! The columns of the fine cells of a box.

ghost use Rattle.std.specs.Prelude.{◌≡◌, [], ◌∷◌, ◌⊎◌, ◌≤◌, ◌≤ℤ◌, ◌<ℤ◌, unsigned_abs};
ghost use Rattle.osm_model.specs.Degrees.{limit};
ghost use Rattle.osm_keys.specs.FineKeys.{fine_column, last_fine_column};

use crate::column_span::ColumnSpan;
use crate::fine_grid::{LAST_COLUMN, fine_column};
use osm_model::Axis;

/// The columns of a box, the same in each row.
#[derive(Clone, Copy)]
pub(crate) enum FineColumns {
    None,
    One(ColumnSpan),
    Two(ColumnSpan, ColumnSpan),
}

impl FineColumns {
    ghost use Rattle.light_keys.specs.internal.FineCells.{columns_in};

    /// The columns from one longitude to another, in 1e-7 degree: none where the first is above the second.
    pub(crate) fn between(west: i32, east: i32) -> FineColumns
        requires west { unsigned_abs west ≤ limit Axis.Lon }
        requires east { unsigned_abs east ≤ limit Axis.Lon }
        ensures { ((east <ℤ west) × (columns_in result ≡ []))
            ⊎ ((west ≤ℤ east) × (columns_in result ≡ (fine_column west, fine_column east) ∷ [])) }
    {
        if east < west {
            return FineColumns::None;
        }
        FineColumns::One(ColumnSpan {
            first: fine_column(west),
            last: fine_column(east),
        })
    }

    /// The columns from one longitude over the 180th meridian to another, in 1e-7 degree.
    pub(crate) fn around(west: i32, east: i32) -> FineColumns
        requires west { unsigned_abs west ≤ limit Axis.Lon }
        requires east { unsigned_abs east ≤ limit Axis.Lon }
        ensures { columns_in result
            ≡ (fine_column west, last_fine_column) ∷ (0, fine_column east) ∷ [] }
    {
        let to_meridian = ColumnSpan {
            first: fine_column(west),
            last: LAST_COLUMN,
        };
        let from_meridian = ColumnSpan {
            first: 0,
            last: fine_column(east),
        };
        FineColumns::Two(to_meridian, from_meridian)
    }
}
