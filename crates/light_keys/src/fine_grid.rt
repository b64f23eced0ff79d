//! The grid of fine cells over the earth: rows from the south, columns from the west.

ghost use Rattle.std.specs.Prelude.{◌≡◌, ◌≤◌, ◌*◌, unsigned_abs};
ghost use Rattle.osm_keys.specs.Keys.{above};
ghost use Rattle.osm_model.specs.Degrees.{limit};
ghost use Rattle.osm_keys.specs.FineKeys.{fine_column, fine_row, last_fine_column, last_fine_row};

use osm_model::Axis;

/// The height of a fine cell, in 1e-7 degree.
const ROW_HEIGHT: u64 = 100_000;

/// The greatest row, of the north pole.
pub(crate) const LAST_ROW: u16 = 18_000;

/// The greatest column, of longitude 180.
pub(crate) const LAST_COLUMN: u32 = 3_600_000_000;

/// The row of the fine cells at a latitude in 1e-7 degree.
pub(crate) fn fine_row(lat: i32) -> u16
    requires { unsigned_abs lat ≤ limit Axis.Lat }
    ensures value { result ≡ fine_row lat }
    ensures bound { result ≤ last_fine_row }
{
    (above(lat, Axis::Lat.limit() as u32) / ROW_HEIGHT) as u16
}

/// The column of the fine cells at a longitude in 1e-7 degree.
pub(crate) fn fine_column(lon: i32) -> u32
    requires { unsigned_abs lon ≤ limit Axis.Lon }
    ensures value { result ≡ fine_column lon }
    ensures bound { result ≤ last_fine_column }
{
    above(lon, Axis::Lon.limit() as u32) as u32
}

/// The longitude of a column, in 1e-7 degree.
pub(crate) fn longitude(column: u32) -> i32
    requires { column ≤ last_fine_column }
    ensures value { fine_column result ≡ column }
    ensures within { unsigned_abs result ≤ limit Axis.Lon }
{
    (i64::from(column) - Axis::Lon.limit() as i64) as i32
}

/// How far a number is above the least one, which is so far below 0.
fn above(value: i32, least: u32) -> u64
    requires within { unsigned_abs value ≤ least }
    ensures value { result ≡ above least value }
    ensures bound { result ≤ 2 * least }
{
    (i64::from(value) + i64::from(least)) as u64
}
