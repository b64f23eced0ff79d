//! Degrees, written as decimal text.

ghost use Rattle.std.specs.Prelude.{◌≡◌, ◌≤◌, ◌<◌, ◌+◌, ◌^◌, ◌++◌, ◌∷◌, [], length, ℕ, ℤ, unsigned_abs};
ghost use Rattle.std.specs.Fmt.{decimal};
ghost use Rattle.osm_model.specs.Degrees.{IsDegrees, limit};
ghost use Rattle.osm_model.specs.CanonicalDegrees.{degrees, decimals_of, with_point};
ghost use Rattle.osm_model.specs.declared.axis.Axis.TheVariants.{Lon};

use crate::units::{UNITS, power_of_ten};
use std::marker::Model;

/// The text of degrees, at most 12 bytes. Contracts see its bytes.
#[derive(Debug, Drop)]
pub struct DegreesText {
    bytes: [u8; 12],
    len: usize,
}

impl Model for DegreesText {
    ghost use Rattle.std.specs.Prelude.{List, ℕ, ◌≤◌, take};

    ghost Value = { List ℕ };

    ghost view = { λ t. take t.len t.bytes };

    ghost invariant = { λ t. t.len ≤ 12 };
}

/// The one canonical text of a value in 1e-7 degree: `-` where it is below 0, whole degrees without
/// leading zeros, and decimals without zeros at the end, with no point where there are none.
///
/// It works in a fixed buffer and takes no memory. Source: this project.
#[tactic(auto, unfolding(crate::specs::CanonicalDegrees::degrees))]
pub fn write_degrees(value: i32) -> DegreesText
    ensures { result ≡ degrees value }
{
    let size = u64::from(value.unsigned_abs());
    let mut text = DegreesText::empty();
    if value < 0 {
        text.push(b'-');
    }
    text.push_whole(size / UNITS);
    text.push_fraction(size % UNITS);
    text
}

/// A law: the text of a value in an axis's range reads back as that value.
pub fn reads_back()
    ensures { (z : ℤ) → unsigned_abs z ≤ limit Lon → IsDegrees (degrees z) z }
{}

impl DegreesText {
    /// The text.
    pub fn as_bytes(&self) -> &[u8]
        ensures { result.now ≡ self.now }
    {
        &self.bytes[..self.len]
    }

    /// How many bytes it has, 12 at most.
    pub fn len(&self) -> usize
        ensures value { result ≡ length self.now }
        ensures short { result ≤ 12 }
    {
        self.len
    }

    fn empty() -> DegreesText
        ensures { result ≡ [] }
    {
        DegreesText {
            bytes: [0; 12],
            len: 0,
        }
    }

    fn push(&mut self, byte: u8)
        requires { length self.old < 12 }
        ensures { self.new ≡ self.old ++ byte ∷ [] }
    {
        self.bytes[self.len] = byte;
        self.len += 1;
    }

    /// Whole degrees, without leading zeros.
    fn push_whole(&mut self, whole: u64)
        requires { length self.old + length (decimal whole) ≤ 12 }
        ensures { self.new ≡ self.old ++ decimal whole }
    {
        if whole >= 10 {
            self.push_whole(whole / 10);
        }
        self.push(b'0' + (whole % 10) as u8);
    }

    /// A point and decimals, where there are any.
    fn push_fraction(&mut self, fraction: u64)
        requires small { fraction < 10000000 }
        requires room { length self.old ≤ 4 }
        ensures { self.new ≡ self.old ++ with_point (decimals_of 7 fraction) }
    {
        if fraction != 0 {
            self.push(b'.');
            self.push_decimals(7, fraction);
        }
    }

    /// So many decimals, without zeros at the end.
    fn push_decimals(&mut self, places: usize, fraction: u64)
        requires room { length self.old + places ≤ 12 }
        requires few { places ≤ 7 }
        requires small { fraction < 10 ^ places }
        ensures { self.new ≡ self.old ++ decimals_of places fraction }
    {
        if fraction == 0 {
            return;
        }
        let power = power_of_ten(places - 1);
        self.push(b'0' + (fraction / power) as u8);
        self.push_decimals(places - 1, fraction % power);
    }
}
