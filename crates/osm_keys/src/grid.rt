//! The grid of cells over the earth: rows from the south, columns from the west.

ghost use Rattle.std.specs.Prelude.{◌≡◌, ◌≤◌, ◌*◌, unsigned_abs};
ghost use Rattle.osm_model.specs.Degrees.{limit};
ghost use Rattle.osm_keys.specs.Keys.{above, column, last_column, last_row, row};

use osm_model::Axis;

/// The height and the width of a cell, in 1e-7 degree.
const CELL_SIZE: u64 = 1_000_000;

/// The greatest row, of the north pole.
pub(crate) const LAST_ROW: u16 = 1800;

/// The greatest column, of longitude 180.
pub(crate) const LAST_COLUMN: u16 = 3600;

/// The row of the cells at a latitude in 1e-7 degree.
pub(crate) fn row(lat: i32) -> u16
    requires { unsigned_abs lat ≤ limit Axis.Lat }
    ensures value { result ≡ row lat }
    ensures bound { result ≤ last_row }
{
    (above(lat, Axis::Lat.limit() as u32) / CELL_SIZE) as u16
}

/// The column of the cells at a longitude in 1e-7 degree.
pub(crate) fn column(lon: i32) -> u16
    requires { unsigned_abs lon ≤ limit Axis.Lon }
    ensures value { result ≡ column lon }
    ensures bound { result ≤ last_column }
{
    (above(lon, Axis::Lon.limit() as u32) / CELL_SIZE) as u16
}

/// How far a number is above the least one, which is so far below 0.
fn above(value: i32, least: u32) -> u64
    requires within { unsigned_abs value ≤ least }
    ensures value { result ≡ above least value }
    ensures bound { result ≤ 2 * least }
{
    (i64::from(value) + i64::from(least)) as u64
}
