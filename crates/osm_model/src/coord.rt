//! Locations.

ghost use Rattle.std.specs.Prelude.{◌≡◌, ◌≤◌, unsigned_abs};
ghost use Rattle.osm_model.specs.Degrees.{limit};
ghost use Rattle.osm_model.specs.Places.{IsPlace};
ghost use Rattle.osm_model.specs.declared.axis.Axis.TheVariants.{Lat, Lon};

use std::marker::Model;

/// A location on the earth (WGS 84), in whole units of 1e-7 degree.
///
/// The longitude is from -180 to 180 degrees, the latitude from -90 to 90. Contracts see the record of the
/// two numbers.
#[derive(Clone, Copy, Debug, PartialEq, Eq)]
pub struct Coord {
    lon: i32,
    lat: i32,
}

impl Model for Coord {
    ghost use Rattle.osm_model.specs.Places.{Place, IsPlace};

    ghost Value = { Place };

    ghost view = { λ a. record { lon = a.lon; lat = a.lat } };

    ghost invariant = { λ a. IsPlace (record { lon = a.lon; lat = a.lat }) };

    ghost inverse = { λ p. record { lon = p.lon; lat = p.lat } };
}

impl Coord {
    /// The location of this longitude and latitude, in 1e-7 degree. `read_degrees` gives numbers in
    /// these ranges.
    pub fn new(lon: i32, lat: i32) -> Coord
        requires lon_in_range { unsigned_abs lon ≤ limit Lon }
        requires lat_in_range { unsigned_abs lat ≤ limit Lat }
        ensures { result ≡ record { lon = lon; lat = lat } }
    {
        Coord { lon, lat }
    }

    /// The longitude, in 1e-7 degree.
    pub fn lon(self) -> i32
        ensures value { result ≡ self.lon }
        ensures place { IsPlace self }
    {
        self.lon
    }

    /// The latitude, in 1e-7 degree.
    pub fn lat(self) -> i32
        ensures value { result ≡ self.lat }
        ensures place { IsPlace self }
    {
        self.lat
    }
}
