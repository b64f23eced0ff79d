//! The ranges in which the nodes of a box are found among fine cells.

ghost use Rattle.std.specs.Iterator.{YieldsFirst, item_count};
ghost use Rattle.osm_keys.specs.FineRanges.{AreFineRanges};

use crate::fine_columns::FineColumns;
use crate::fine_range::FineRange;
use crate::fine_rows::FineRows;
use crate::whole_edges::WholeEdges;
use osm_model::BoxArea;
use std::marker::Model;

/// The ranges of the tree of fine cells that ask for the nodes of the map in a box, one after the other: row by row from
/// the south, one range a row, or two where the box crosses the 180th meridian, first the one from the western edge to
/// the meridian. A box that lies between two neighbouring units of 1e-7 degree has none. `fine_cell_law` says what the
/// ranges find: nodes at longitudes of the box alone, but in the first and the last row perhaps at latitudes outside it.
///
/// There are at most 36,002 ranges: two for each row of the earth. It allocates nothing. Contracts see the ranges that are
/// still to come.
#[derive(Drop)]
pub struct FineRanges {
    // The rows that are still to come: up to the end, which isn't one of them.
    row: u16,
    end: u16,
    columns: FineColumns,
    // The second range of the row before.
    second: Option<FineRange>,
}

impl Model for FineRanges {
    ghost use Rattle.std.specs.List.{flat_map, range_with_len};
    ghost use Rattle.std.specs.Option.{option_to_list};
    ghost use Rattle.std.specs.Prelude.{◌-◌, ◌++◌, List, map};
    ghost use Rattle.tree_walk.specs.Ranges.{Range};
    ghost use Rattle.osm_keys.specs.FineRanges.{fine_range};
    ghost use Rattle.light_keys.specs.internal.FineCells.{columns_in};

    ghost Value = { List Range };

    ghost view = { λ a. option_to_list a.second ++ flat_map (λ row. map (fine_range row) (columns_in a.columns)) (range_with_len a.row (a.end - a.row)) };
}

impl Iterator for FineRanges {
    type Item = FineRange;

    ghost next_gives = { YieldsFirst (λ ranges. ranges) };

    ghost remaining = { item_count (λ ranges. ranges) };

    fn next(&mut self) -> Option<FineRange> {
        if let Some(range) = self.second {
            self.second = None;
            return Some(range);
        }
        if self.row >= self.end {
            return None;
        }
        let row = self.row;
        match self.columns {
            FineColumns::None => None,
            FineColumns::One(span) => {
                let range = FineRange::in_row(row, span);
                self.row = row + 1;
                Some(range)
            }
            FineColumns::Two(to_meridian, from_meridian) => {
                let second = FineRange::in_row(row, from_meridian);
                *self = FineRanges {
                    row: row + 1,
                    end: self.end,
                    columns: self.columns,
                    second: Some(second),
                };
                Some(FineRange::in_row(row, to_meridian))
            }
        }
    }
}

impl FineRanges {
    /// The ranges of a box. Linear in the texts of its edges.
    pub fn of(area: &BoxArea<'_>) -> FineRanges
        ensures { AreFineRanges area.now result }
    {
        let edges = WholeEdges::inside(area);
        let rows = FineRows::between(edges.south, edges.north);
        let columns = if area.crosses_meridian() {
            FineColumns::around(edges.west, edges.east)
        } else {
            FineColumns::between(edges.west, edges.east)
        };
        FineRanges {
            row: rows.first,
            end: rows.end,
            columns,
            second: None,
        }
    }
}
