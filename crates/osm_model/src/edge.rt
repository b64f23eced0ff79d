//! Edges of bounding boxes.

ghost use Rattle.std.specs.Prelude.{◌≡◌, ◌≤◌, ◌<◌, ◌*◌, ◌^◌, ◌++◌, ◌↔◌, ◌≤ℤ◌, ℕ, ℤ, unsigned_abs, List, IsTrue, IfOk, IfErr, length, Ok};
ghost use Rattle.std.specs.Str.Parse.{AllDigits, digits_value};
ghost use Rattle.osm_model.specs.Degrees.{Decimal, Spells, IsDegrees, limit};
ghost use Rattle.osm_model.specs.CanonicalDegrees.{degrees};
ghost use Rattle.osm_model.specs.declared.axis.Axis.TheVariants.{Lon};
ghost use Rattle.osm_model.specs.Edges.{IsEdge, IsEdgeFault, IsOnAxis, IsAtMost, IsAtLeast, IsGreater, IsFloor, IsCeiling};
ghost use Rattle.osm_model.specs.internal.EdgeUnits.{IsAround, signed_floor, signed_ceiling};

use crate::axis::Axis;
use crate::decimal::{Parts, split};
use crate::decimal_order::compare_sizes;
use crate::degrees::units_of;
use crate::fault::ModelFault;
use std::marker::Model;

/// An edge of a bounding box: an exact decimal of any length, in degrees, which borrows its text.
///
/// It keeps its axis, and is never out of that axis's range. Contracts see the axis and the decimal.
/// No call takes memory. Two edges of one value may be spelled by different texts, as `13.4` and
/// `13.40`.
#[derive(Debug, Drop)]
pub struct Edge<'a> {
    axis: Axis,
    parts: Parts<'a>,
    // The next whole units below and above, computed once: a box is asked for many locations.
    floor: i32,
    ceiling: i32,
}

impl<'a> Model for Edge<'a> {
    ghost use Rattle.osm_model.specs.Edges.{ExactEdge, IsEdge};
    ghost use Rattle.osm_model.specs.internal.EdgeUnits.{IsBetween};

    ghost Value = { ExactEdge };

    ghost use Rattle.osm_model.specs.DecimalParts.{decimal_of};

    ghost view = { λ a. record { axis = a.axis; value = decimal_of a.parts } };

    ghost invariant = { λ a. IsEdge (record { axis = a.axis; value = decimal_of a.parts }) × IsBetween (decimal_of a.parts) a.floor a.ceiling };
}

impl<'a> Edge<'a> {
    /// The edge that this text spells: an optional `-`, one or more digits, and optionally `.` and
    /// one or more digits, any number of them.
    ///
    /// Refused by the first of these that holds: `EmptyNumber` for no text at all, `NotDecimal`,
    /// `OutOfRange` for a value outside the axis's range, however little it is outside. Linear in the
    /// text.
    ///
    /// Source: box edges of the Overpass query language, without exponents (this project).
    pub fn read(text: &'a [u8], axis: Axis) -> Result<Edge<'a>, ModelFault>
        // What is read is spelled so.
        ensures read { IfOk result (λ e. (e.axis ≡ axis) × Spells text.now e.value × IsEdge e) }
        // What is spelled so is read.
        ensures only { (d : Decimal) → Spells text.now d → IsOnAxis axis d → result ≡ Ok (record { axis = axis; value = d }) }
        // Which fault it is.
        ensures refused { IfErr result (λ fault. IsEdgeFault text.now axis fault) }
    {
        read_edge(text, axis)
    }

    /// Whether a value, in 1e-7 degree, isn't below the edge.
    pub fn at_least(&self, units: i32) -> bool
        ensures value { IsTrue result ↔ IsAtLeast units self.now.value }
        ensures edge { IsEdge self.now }
    {
        units >= self.ceiling
    }

    /// Whether a value, in 1e-7 degree, isn't above the edge.
    pub fn at_most(&self, units: i32) -> bool
        ensures value { IsTrue result ↔ IsAtMost units self.now.value }
        ensures edge { IsEdge self.now }
    {
        units <= self.floor
    }

    /// The greatest whole number of units of 1e-7 degree that isn't above the edge. It is in the range
    /// of the edge's axis.
    pub fn floor_units(&self) -> i32
        ensures floor { IsFloor self.now.value result }
        ensures within { unsigned_abs result ≤ limit self.now.axis }
    {
        self.floor
    }

    /// The least whole number of units of 1e-7 degree that isn't below the edge. It is in the range of
    /// the edge's axis.
    pub fn ceiling_units(&self) -> i32
        ensures ceiling { IsCeiling self.now.value result }
        ensures within { unsigned_abs result ≤ limit self.now.axis }
    {
        self.ceiling
    }

    /// Whether another edge has the same axis, sign and digits. Linear in the edges' texts.
    pub fn is_same(&self, other: &Edge<'_>) -> bool
        ensures { IsTrue result ↔ (self.now ≡ other.now) }
    {
        self.axis == other.axis && self.parts.is_same(other.parts)
    }

    /// Whether it is above another edge, by their exact values.
    pub(crate) fn is_above(&self, other: &Edge<'a>) -> bool
        ensures { IsTrue result ↔ IsGreater self.now.value other.now.value }
    {
        match (self.parts.negative, other.parts.negative) {
            (false, false) => compare_sizes(self.parts, other.parts).is_gt(),
            (true, true) => compare_sizes(other.parts, self.parts).is_gt(),
            // Only two zeros are equal.
            (false, true) => !(self.at_least(0) && other.at_most(0)),
            (true, false) => false,
        }
    }
}

/// A law: a text spells one decimal at most, so an edge's text has one value.
pub fn one_decimal()
    ensures { (text : List ℕ) (d e : Decimal) → Spells text d → Spells text e → d ≡ e }
{}

/// A law: an edge with at most seven decimals compares as its value in 1e-7 degree does, and so does
/// the edge of what `write_degrees` writes.
pub fn compares_as_degrees()
    // An edge whose text `read_degrees` reads too.
    ensures read { (text : List ℕ) (z u : ℤ) (d : Decimal) → IsDegrees text z → Spells text d
        → (IsAtLeast u d ↔ (z ≤ℤ u)) × (IsAtMost u d ↔ (u ≤ℤ z)) }
    // The edge of a value that is written.
    ensures written { (z u : ℤ) (d : Decimal) → unsigned_abs z ≤ limit Lon
        → Spells (degrees z) d → (IsAtLeast u d ↔ (z ≤ℤ u)) × (IsAtMost u d ↔ (u ≤ℤ z)) }
{}

/// The edge, or the first fault.
fn read_edge(text: &[u8], axis: Axis) -> Result<Edge<'_>, ModelFault>
    ensures read { IfOk result (λ e. (e.axis ≡ axis) × Spells text.now e.value × IsEdge e) }
    ensures refused { IfErr result (λ fault. IsEdgeFault text.now axis fault) }
{
    if text.is_empty() {
        return Err(ModelFault::EmptyNumber);
    }
    let Some(parts) = split(text) else {
        return Err(ModelFault::NotDecimal);
    };
    let sizes = sizes_of(parts.whole, parts.decimals());
    if sizes.ceiling > axis.limit() {
        return Err(ModelFault::OutOfRange);
    }
    let (floor, ceiling) = sizes.with_sign(parts.negative);
    Ok(Edge {
        axis,
        parts,
        floor,
        ceiling,
    })
}

/// Without its sign, the next whole units below and above a decimal.
#[derive(Clone, Copy)]
struct Sizes {
    floor: u64,
    ceiling: u64,
}

impl Sizes {
    /// The next whole units below and above, with the decimal's sign.
    fn with_sign(self, negative: bool) -> (i32, i32)
        requires order { self.floor ≤ self.ceiling }
        requires range { self.ceiling ≤ limit Lon }
        ensures floor { result.0 ≡ signed_floor negative self.floor self.ceiling }
        ensures ceiling { result.1 ≡ signed_ceiling negative self.floor self.ceiling }
    {
        let (floor, ceiling) = (self.floor as i32, self.ceiling as i32);
        if negative {
            (-ceiling, -floor)
        } else {
            (floor, ceiling)
        }
    }
}

/// The units around what these digits make; above each limit they are only known to be so.
fn sizes_of(whole: &[u8], fraction: &[u8]) -> Sizes
    requires whole { AllDigits 10 whole.now }
    requires fraction { AllDigits 10 fraction.now }
    ensures small { result.floor ≤ limit Lon
        → IsAround (digits_value 10 (whole.now ++ fraction.now) * 10 ^ 7)
        (10 ^ length fraction.now) result.floor result.ceiling }
    ensures large { limit Lon < result.floor
        → limit Lon * 10 ^ length fraction.now
        < digits_value 10 (whole.now ++ fraction.now) * 10 ^ 7 }
    ensures order { result.floor ≤ result.ceiling }
{
    let (first, rest) = fraction.split_at(fraction.len().min(7));
    let floor = units_of(whole, first);
    let ceiling = if are_zeros(rest) { floor } else { floor + 1 };
    Sizes { floor, ceiling }
}

/// Whether all digits are zero.
fn are_zeros(digits: &[u8]) -> bool
    requires { AllDigits 10 digits.now }
    ensures { IsTrue result ↔ (digits_value 10 digits.now ≡ 0) }
{
    digits.iter().all(|digit| *digit == b'0')
}
