//! Columns of fine cells that lie side by side.

ghost use Rattle.std.specs.Prelude.{◌≤◌};
ghost use Rattle.osm_keys.specs.FineKeys.{last_fine_column};

/// The columns from the first to the last.
#[derive(Clone, Copy)]
pub(crate) struct ColumnSpan {
    pub(crate) first: u32,
    pub(crate) last: u32,
    ghost ordered: { first ≤ last },
    ghost within: { last ≤ last_fine_column },
}
