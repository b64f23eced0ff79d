//! The ranges of the cell tree in which the nodes of a box are found.

ghost use Rattle.std.specs.List.{flat_map};
ghost use Rattle.std.specs.Prelude.{◌≡◌, [], ◌∷◌, ◌++◌, IfOk, OnOk, map};
ghost use Rattle.osm_keys.specs.Ranges.{AreCellRanges, cell_range};
ghost use Rattle.osm_keys.specs.internal.Cells.{columns_in, ends_of, rows_in};

use crate::column_span::ColumnSpan;
use crate::columns::Columns;
use crate::ranges::OwnedRange;
use crate::rows::Rows;
use crate::whole_edges::WholeEdges;
use osm_model::BoxArea;
use std::alloc::{AllocError, Global};

/// The ranges of the cell tree that ask for the nodes of the map in a box (this project's trees,
/// docs/FORMATS.md): row by row from the south, one range a row, or two where the box crosses the
/// 180th meridian. A box that lies between two neighbouring units of 1e-7 degree has none. The cells
/// may also hold nodes outside the box; `cell_law` says what the ranges find.
///
/// There are at most 3602 ranges. It allocates the list and eight bytes for each range, and fails only if memory runs
/// out.
pub fn cell_ranges(alloc: Global, area: &BoxArea<'_>) -> Result<Vec<OwnedRange>, AllocError>
    ensures { IfOk result (λ ranges. AreCellRanges area.now ranges.items) }
{
    let edges = WholeEdges::inside(area);
    let rows = Rows::between(edges.south, edges.north);
    let columns = if area.crosses_meridian() {
        Columns::around(edges.west, edges.east)
    } else {
        Columns::between(edges.west, edges.east)
    };
    ranges_of(alloc, rows, columns)
}

/// The ranges of these rows, each with these columns.
fn ranges_of(alloc: Global, rows: Rows, columns: Columns) -> Result<Vec<OwnedRange>, AllocError>
    ensures { IfOk result (λ ranges.
        ranges.items ≡ flat_map (λ row. map (cell_range row) (columns_in columns)) (rows_in rows)) }
{
    let mut ranges = Vec::new(alloc);
    for row in rows.first..rows.end {
        append_row(alloc, row, columns, &mut ranges)?;
    }
    Ok(ranges)
}

/// Appends the ranges of a row.
fn append_row(
    alloc: Global,
    row: u16,
    columns: Columns,
    ranges: &mut Vec<OwnedRange>,
) -> Result<(), AllocError>
    ensures { OnOk result (ranges.new.items ≡ ranges.old.items
        ++ map (cell_range row) (columns_in columns)) }
{
    match columns {
        Columns::None => Ok(()),
        Columns::One(span) => append_span(alloc, row, span, ranges),
        Columns::Two(first, second) => {
            append_span(alloc, row, first, ranges)?;
            append_span(alloc, row, second, ranges)
        }
    }
}

/// Appends the range of some columns of a row.
fn append_span(
    alloc: Global,
    row: u16,
    span: ColumnSpan,
    ranges: &mut Vec<OwnedRange>,
) -> Result<(), AllocError>
    ensures { OnOk result (ranges.new.items ≡ ranges.old.items
        ++ cell_range row (ends_of span) ∷ []) }
{
    let range = OwnedRange::of_cells(alloc, row, span.first, span.last)?;
    ranges.push(range)?;
    Ok(())
}
