//! The two axes of a location.

ghost use Rattle.std.specs.Prelude.{◌≡◌};
ghost use Rattle.osm_model.specs.Degrees.{limit};

/// An axis: it says how far from 0 its degrees go.
#[derive(Clone, Copy, Debug, PartialEq, Eq)]
pub enum Axis {
    /// Longitude, from -180 to 180 degrees.
    Lon,
    /// Latitude, from -90 to 90 degrees.
    Lat,
}

impl Axis {
    /// The greatest distance from 0, in 1e-7 degree.
    pub fn limit(self) -> u64
        ensures { result ≡ limit self }
    {
        match self {
            Axis::Lon => 1_800_000_000,
            Axis::Lat => 900_000_000,
        }
    }
}
