//! One range of fine cells.

ghost use Rattle.std.specs.Prelude.{◌≡◌};
ghost use Rattle.tree_walk.specs.Ranges.{IsIn, range_of};
ghost use Rattle.osm_keys.specs.FineRanges.{fine_range};

use crate::column_span::ColumnSpan;
use crate::fine_keys::fine_corner;
use std::marker::Model;
use tree_walk::KeyRange;

/// The range of the keys of a row of fine cells from one longitude to another, both included; `as_range` lends it to a
/// walk. It is never empty, since its low end is in it. Contracts see its ends.
#[derive(Clone, Copy, Debug, PartialEq, Eq)]
pub struct FineRange {
    lo: [u8; 6],
    hi: [u8; 6],
}

impl Model for FineRange {
    ghost use Rattle.std.specs.Prelude.{true};
    ghost use Rattle.tree_walk.specs.Ranges.{IsIn, Range};

    ghost Value = { Range };

    ghost view = { λ a. record { lo = a.lo; hi = a.hi; under = true } };

    ghost invariant = { λ a. IsIn (record { lo = a.lo; hi = a.hi; under = true }) a.lo };

    ghost inverse = { λ range. record { lo = range.lo; hi = range.hi } };
}

impl FineRange {
    ghost use Rattle.light_keys.specs.internal.FineCells.{ends_of};

    /// The range, with its ends borrowed: from `lo` to `hi`, and the keys that begin with `hi`.
    pub fn as_range(&self) -> KeyRange<'_>
        ensures value { range_of result ≡ self.now }
        ensures some { IsIn self.now self.now.lo }
    {
        KeyRange {
            lo: &self.lo,
            hi: &self.hi,
            under: true,
        }
    }

    /// The range of these columns of a row.
    pub(crate) fn in_row(row: u16, columns: ColumnSpan) -> FineRange
        ensures { result ≡ fine_range row (ends_of columns) }
    {
        FineRange {
            lo: fine_corner(row, columns.first),
            hi: fine_corner(row, columns.last),
        }
    }
}
