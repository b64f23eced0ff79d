//! Columns of cells that lie side by side.

ghost use Rattle.std.specs.Prelude.{◌≤◌};

/// The columns from the first to the last.
#[derive(Clone, Copy)]
pub(crate) struct ColumnSpan {
    pub(crate) first: u16,
    pub(crate) last: u16,
    ghost ordered: { first ≤ last },
}
