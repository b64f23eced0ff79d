//! Bounding boxes.

ghost use Rattle.std.specs.Prelude.{◌≡◌, ◌↔◌, IsTrue, IfOk, IfErr, Ok};
ghost use Rattle.osm_model.specs.Edges.{IsGreater, IsAtLeast, IsAtMost};
ghost use Rattle.osm_model.specs.Boxes.{ExactBox, IsBox, Holds, Spans};

use crate::axis::Axis;
use crate::coord::Coord;
use crate::edge::Edge;
use crate::fault::ModelFault;
use std::marker::Model;

/// A bounding box: four exact edges, south not above north. Contracts see the four edges.
///
/// A box whose western edge is above its eastern one crosses the 180th meridian. No call takes memory.
#[derive(Debug, Drop)]
pub struct BoxArea<'a> {
    south: Edge<'a>,
    west: Edge<'a>,
    north: Edge<'a>,
    east: Edge<'a>,
    // Whether west is above east.
    wraps: bool,
}

impl<'a> Model for BoxArea<'a> {
    ghost use Rattle.std.specs.Prelude.{◌↔◌, IsTrue};
    ghost use Rattle.osm_model.specs.Edges.{IsGreater};
    ghost use Rattle.osm_model.specs.Boxes.{ExactBox, IsBox};

    ghost Value = { ExactBox };

    ghost view = { λ a. record { south = a.south; west = a.west; north = a.north; east = a.east } };

    ghost invariant = { λ a. IsBox (record { south = a.south; west = a.west; north = a.north; east = a.east }) × (IsTrue a.wraps ↔ IsGreater a.west.value a.east.value) };
}

impl<'a> BoxArea<'a> {
    /// The box of these edges, in the order of the Overpass query language. South and north are
    /// latitudes and west and east longitudes: the caller reads them so.
    ///
    /// Refused with `SouthAboveNorth` where the exact south is above the exact north. Linear in the
    /// edges' texts.
    pub fn new(
        south: Edge<'a>,
        west: Edge<'a>,
        north: Edge<'a>,
        east: Edge<'a>,
    ) -> Result<BoxArea<'a>, ModelFault>
        requires south { south.axis ≡ Axis.Lat }
        requires west { west.axis ≡ Axis.Lon }
        requires north { north.axis ≡ Axis.Lat }
        requires east { east.axis ≡ Axis.Lon }
        // What is made has just these edges.
        ensures made { IfOk result (λ b. (b ≡ record { south = south.entry; west = west.entry; north = north.entry; east = east.entry }) × IsBox b) }
        // Where south is above north, and nowhere else, it is refused.
        ensures refused { IfErr result (λ fault. (fault ≡ ModelFault.SouthAboveNorth) × IsGreater south.entry.value north.entry.value) }
    {
        if south.is_above(&north) {
            return Err(ModelFault::SouthAboveNorth);
        }
        let wraps = west.is_above(&east);
        Ok(BoxArea {
            south,
            west,
            north,
            east,
            wraps,
        })
    }

    /// The southern edge, a latitude.
    pub fn south(&self) -> &Edge<'a>
        ensures value { result.now ≡ self.now.south }
        ensures shape { IsBox self.now }
    {
        &self.south
    }

    /// The western edge, a longitude.
    pub fn west(&self) -> &Edge<'a>
        ensures value { result.now ≡ self.now.west }
        ensures shape { IsBox self.now }
    {
        &self.west
    }

    /// The northern edge, a latitude.
    pub fn north(&self) -> &Edge<'a>
        ensures value { result.now ≡ self.now.north }
        ensures shape { IsBox self.now }
    {
        &self.north
    }

    /// The eastern edge, a longitude.
    pub fn east(&self) -> &Edge<'a>
        ensures value { result.now ≡ self.now.east }
        ensures shape { IsBox self.now }
    {
        &self.east
    }

    /// Whether the box crosses the 180th meridian: its western edge is above its eastern one, by their
    /// exact values.
    pub fn crosses_meridian(&self) -> bool
        ensures { IsTrue result ↔ IsGreater self.now.west.value self.now.east.value }
    {
        self.wraps
    }

    /// Whether the edges of another box have the same digits. Linear in the edges' texts.
    pub fn is_same(&self, other: &BoxArea<'_>) -> bool
        ensures { IsTrue result ↔ (self.now ≡ other.now) }
    {
        self.south.is_same(&other.south)
            && self.west.is_same(&other.west)
            && self.north.is_same(&other.north)
            && self.east.is_same(&other.east)
    }

    /// Whether a location is in the box or on its edge, by the exact edges: from south to north, and
    /// from west to east. Where west is above east, that is from west on or up to east.
    pub fn holds(&self, place: Coord) -> bool
        ensures holds { IsTrue result ↔ Holds self.now place }
        ensures shape { IsBox self.now }
    {
        self.spans_latitude(place.lat()) && self.spans_longitude(place.lon())
    }

    /// Whether a latitude is from south to north.
    fn spans_latitude(&self, lat: i32) -> bool
        ensures value { IsTrue result ↔ (IsAtLeast lat self.now.south.value × IsAtMost lat self.now.north.value) }
        ensures shape { IsBox self.now }
    {
        self.south.at_least(lat) && self.north.at_most(lat)
    }

    /// Whether a longitude is from west to east.
    fn spans_longitude(&self, lon: i32) -> bool
        ensures { IsTrue result ↔ Spans self.now.west.value self.now.east.value lon }
    {
        let from_west = self.west.at_least(lon);
        let to_east = self.east.at_most(lon);
        if self.wraps {
            from_west || to_east
        } else {
            from_west && to_east
        }
    }
}
