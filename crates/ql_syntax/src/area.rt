//! Boxes as filters.

ghost use Rattle.std.specs.Prelude.{◌≡◌, ℕ, List, IfOk, IfErr};
ghost use Rattle.osm_model.specs.Degrees.{Spells};
ghost use Rattle.ql_syntax.specs.Areas.{AreBox, area, box_of};
ghost use Rattle.ql_syntax.specs.internal.Following.{Follows, Keeps};
ghost use Rattle.ql_syntax.specs.internal.FilterReaders.{the_filter, corners_of};
ghost use Rattle.ql_syntax.specs.internal.NumberParts.{decimal_of};
ghost use Rattle.ql_syntax.specs.Selectors.{box_after, corner};
ghost use Rattle.ql_syntax.specs.internal.Views.{number_of, the_number};

use crate::cause::QlCause;
use crate::filter::Filter;
use crate::number::Number;
use crate::syntax_error::SyntaxError;
use crate::token_kind::TokenKind;
use crate::token_readers::{NumberSpot, next_number, pass};
use osm_model::{Axis, BoxArea, Edge, ModelFault};
use std::alloc::{AllocError, Global};

/// The box whose first number and comma have been read, and what is left after its `)`.
pub(crate) fn read_box<'a>(
    alloc: Global,
    south: NumberSpot<'a>,
    text: &'a [u8],
) -> Result<(Filter<'a>, &'a [u8]), SyntaxError<'a>>
    requires { Spells south.number.text.now (decimal_of south.number) }
    ensures { Follows (box_after (number_of south.entry)) the_filter text.now result }
{
    let west = next_number(text)?;
    let north = next_corner(west.number.rest)?;
    let east = next_corner(north.number.rest)?;
    let rest = pass(east.number.rest, TokenKind::CloseParenthesis)?;
    let area = area_of(south, west.number, north.number, east.number)?;
    let area = Box::new(alloc, area).map_err(AllocError::from)?;
    Ok((Filter::Within(area), rest))
}

/// The number after a comma.
#[inline(always)]
fn next_corner(text: &[u8]) -> Result<NumberSpot<'_>, SyntaxError<'_>>
    ensures follows { Keeps corner the_number text.now result }
    ensures spelled { IfOk result (λ spot. Spells spot.number.text.now (decimal_of spot.number)) }
{
    let rest = pass(text, TokenKind::Comma)?;
    next_number(rest)
}

/// The box of these corners. `BadBox` at the first of them where they are none.
#[inline(always)]
fn area_of<'a>(
    south: NumberSpot<'a>,
    west: Number<'a>,
    north: Number<'a>,
    east: Number<'a>,
) -> Result<BoxArea<'a>, SyntaxError<'a>>
    requires south { Spells south.number.text.now (decimal_of south.number) }
    requires west { Spells west.text.now (decimal_of west) }
    requires north { Spells north.text.now (decimal_of north) }
    requires east { Spells east.text.now (decimal_of east) }
    ensures { (text : List ℕ)
        → Keeps (area (corners_of south.entry.number west.entry north.entry east.entry) south.entry.place.now) (λ found. (found, text)) text result }
{
    match new_box(south.number, west, north, east) {
        Ok(area) => Ok(area),
        Err(_) => Err(SyntaxError::at(QlCause::BadBox, south.place)),
    }
}

/// The box of these corners.
#[inline(always)]
fn new_box<'a>(
    south: Number<'a>,
    west: Number<'a>,
    north: Number<'a>,
    east: Number<'a>,
) -> Result<BoxArea<'a>, ModelFault>
    requires south { Spells south.text.now (decimal_of south) }
    requires west { Spells west.text.now (decimal_of west) }
    requires north { Spells north.text.now (decimal_of north) }
    requires east { Spells east.text.now (decimal_of east) }
    ensures made { IfOk result
        (λ found. AreBox (corners_of south.entry west.entry north.entry east.entry)
        × (found ≡ box_of (corners_of south.entry west.entry north.entry east.entry))) }
    ensures refused { IfErr result
        (λ _. ¬ (AreBox (corners_of south.entry west.entry north.entry east.entry))) }
{
    let south = Edge::read(south.text, Axis::Lat)?;
    let west = Edge::read(west.text, Axis::Lon)?;
    let north = Edge::read(north.text, Axis::Lat)?;
    let east = Edge::read(east.text, Axis::Lon)?;
    BoxArea::new(south, west, north, east)
}
