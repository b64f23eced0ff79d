//! The keys and values of trees whose entries state digests of lines, and the manifest over their tops: the bytes,
//! written and read, without the trees themselves.
//!
//! An object's canonical line is a node of its own there, and each entry that names an object states the digest of that
//! object's line: `line_digest` is that digest, and `line_value` and `read_line_value` are the values of the trees of
//! objects, tags and back references, whose keys are those of `osm_keys`. In the cell tree the cells are fine: a
//! hundredth of a degree high, and one unit of longitude wide. Nothing here builds, walks or asks such trees.
#![tactic(auto)]

mod column_span;
mod digests;
mod fine_columns;
mod fine_grid;
mod fine_keys;
mod fine_range;
mod fine_ranges;
mod fine_rows;
mod laws;
mod line_values;
mod manifest;
mod read_fine;
mod whole_edges;

pub use digests::line_digest;
pub use fine_keys::{fine_cell_key, fine_cell_value};
pub use fine_range::FineRange;
pub use fine_ranges::FineRanges;
pub use laws::{fine_cell_law, fine_entry_law, fine_key_order_law, light_manifest_law};
pub use line_values::{line_value, read_line_value};
pub use manifest::{LightManifest, append_light_manifest, read_light_manifest};
pub use read_fine::{FineCell, read_fine_cell};
