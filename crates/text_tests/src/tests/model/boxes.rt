//! A box and its edges. Rows of boxes are asked of the program, in tests/system/text_rows_test.py.

use osm_model::{Axis, BoxArea, Coord, Edge, ModelFault};
use std::test::Fail;

/// The box between two parallels and the meridians of 179 degrees.
fn box_of<'a>(south: &'a [u8], north: &'a [u8]) -> Result<BoxArea<'a>, ModelFault> {
    let west = Edge::read(b"179", Axis::Lon)?;
    let east = Edge::read(b"-179", Axis::Lon)?;
    BoxArea::new(
        Edge::read(south, Axis::Lat)?,
        west,
        Edge::read(north, Axis::Lat)?,
        east,
    )
}

#[test]
fn a_box_holds_places_across_the_180th_meridian(rt: HostRuntime) -> Result<(), Fail> {
    let area = box_of(b"-1", b"1")?;
    assert!(rt; area.holds(Coord::new(-1_800_000_000, 10_000_000)));
    assert!(rt; !area.holds(Coord::new(0, 0)));
    assert!(rt; box_of(b"1", b"-1").err() == Some(ModelFault::SouthAboveNorth));
    Ok(())
}

#[test]
fn edges_lie_between_whole_units(rt: HostRuntime) -> Result<(), Fail> {
    let edge = Edge::read(b"13.40000004", Axis::Lon)?;
    assert!(rt; edge.at_most(134_000_000) && !edge.at_most(134_000_001));
    assert!(rt; edge.at_least(134_000_001) && !edge.at_least(134_000_000));
    Ok(())
}

#[test]
fn a_box_is_the_same_by_its_digits(rt: HostRuntime) -> Result<(), Fail> {
    let area = box_of(b"52.5", b"52.60")?;
    assert!(rt; area.is_same(&box_of(b"52.5", b"52.60")?));
    for (south, north) in [
        (&b"52.5"[..], &b"52.6"[..]),
        (b"52.50", b"52.60"),
        (b"-52.5", b"52.60"),
        (b"52", b"52.60"),
    ] {
        assert!(rt; !area.is_same(&box_of(south, north)?));
    }
    Ok(())
}
