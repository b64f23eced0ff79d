//! Rows of the ranges that a box has in the cell tree.

use super::ends;
use osm_index::cell_ranges;
use osm_model::{Axis, BoxArea, Edge, ModelFault};
use std::alloc::{AllocError, Global};
use std::test::Fail;

/// The box of these edges: south, west, north, east.
fn box_of([south, west, north, east]: [&str; 4]) -> Result<BoxArea<'_>, ModelFault> {
    let south = Edge::read(south.as_bytes(), Axis::Lat)?;
    let west = Edge::read(west.as_bytes(), Axis::Lon)?;
    let north = Edge::read(north.as_bytes(), Axis::Lat)?;
    let east = Edge::read(east.as_bytes(), Axis::Lon)?;
    BoxArea::new(south, west, north, east)
}

/// The two ends of each range of a box in hexadecimal digits.
fn shown(alloc: Global, edges: [&str; 4]) -> Result<Vec<String>, Fail> {
    let area = box_of(edges)?;
    let mut lines = Vec::new(alloc);
    for range in cell_ranges(alloc, &area)?.iter() {
        lines.push(ends(alloc, range)?)?;
    }
    Ok(lines)
}

/// Boxes with few ranges, and all of these.
#[test]
fn boxes_have_these_ranges(rt: HostRuntime) -> Result<(), Fail> {
    let rows = [
        // One point.
        (["52.5", "13.4", "52.5", "13.4"], "0591078e 0591078e\n"),
        // Two rows of three columns.
        (
            ["-0.05", "-0.05", "0.05", "0.15"],
            "03830707 03830709\n03840707 03840709\n",
        ),
        // The edges are rounded to units inside the box.
        (["0", "13.39999999", "0", "13.5"], "0384078e 0384078f\n"),
        (["0", "13.4", "0", "13.49999999"], "0384078e 0384078e\n"),
        (["13.39999999", "0", "13.4", "0"], "040a0708 040a0708\n"),
        (["13.4", "0", "13.49999999", "0"], "040a0708 040a0708\n"),
        // It lies between two units.
        (["0.00000001", "0", "0.00000002", "1"], ""),
        (["0", "0.00000001", "1", "0.00000002"], ""),
        // Across the 180th meridian, and almost round the earth.
        (
            ["0", "179.95", "0", "-179.95"],
            "03840e0f 03840e10\n03840000 03840000\n",
        ),
        (
            ["0", "13.45", "0", "13.41"],
            "0384078e 03840e10\n03840000 0384078e\n",
        ),
    ];
    for (edges, ranges) in rows {
        let mut found = String::new(rt.alloc());
        for line in shown(rt.alloc(), edges)?.iter() {
            found.push_str(line.as_str())?;
            found.push_str("\n")?;
        }
        assert_eq!(rt; found.as_str(), ranges);
    }
    Ok(())
}

/// Boxes with many ranges: how many, the first two and the last.
#[test]
fn large_boxes_go_row_by_row(rt: HostRuntime) -> Result<(), Fail> {
    let rows = [
        (
            ["-1", "179", "1", "-179"],
            42,
            ["037a0e06 037a0e10", "037a0000 037a000a"],
            "038e0000 038e000a",
        ),
        (
            ["-90", "-180", "90", "180"],
            1801,
            ["00000000 00000e10", "00010000 00010e10"],
            "07080000 07080e10",
        ),
        (
            ["-90", "180", "90", "-180"],
            3602,
            ["00000e10 00000e10", "00000000 00000000"],
            "07080000 07080000",
        ),
    ];
    for (edges, number, [first, second], last) in rows {
        let found = shown(rt.alloc(), edges)?;
        assert_eq!(rt; found.len(), number);
        assert_eq!(rt; found.first().map(|line| line.as_str()), Some(first));
        assert_eq!(rt; found.get(1).map(|line| line.as_str()), Some(second));
        assert_eq!(rt; found.last().map(|line| line.as_str()), Some(last));
    }
    Ok(())
}

/// Run with each allocation refused in turn, it gives all ranges or out of memory, and all of them when
/// memory is there again.
#[test]
fn ranges_of_cells_survive_refused_memory(rt: HostRuntime) -> Result<(), Fail> {
    let area = box_of(["-1", "179", "1", "-179"])?;
    match cell_ranges(rt.alloc(), &area) {
        Ok(ranges) => assert_eq!(rt; ranges.len(), 42),
        Err(AllocError) => (),
    }
    assert_eq!(rt; cell_ranges(rt.alloc(), &area)?.len(), 42);
    Ok(())
}
