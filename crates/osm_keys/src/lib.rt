//! The keys and values that the digest trees of a set of objects hold, and the manifest over their tops: the bytes,
//! written and read, without the trees themselves.
//!
//! The key and range writers name the keys in which a question about a set is answered, and the readers say what a
//! key, a value or a manifest means. What a publisher makes of a set is defined here ([`Manifest`], and in `specs/`
//! the entries of each tree and the publication), and the crate's laws say what each range of keys finds in it. This is
//! all that evaluating or checking a query needs to know of a publication; `osm_index` builds publications.
#![tactic(auto)]

mod cells;
mod column_span;
mod columns;
mod edition;
mod grid;
mod keys;
mod laws;
mod manifest;
mod ranges;
mod read_keys;
mod rows;
mod whole_edges;

pub use cells::cell_ranges;
pub use edition::Edition;
pub use keys::{append_tag_key, back_key, cell_key, cell_value, reference_key};
pub use laws::{
    back_law, cell_law, entries_are_bytes, key_order_law, kind_law, manifest_law, object_law,
    publication_law, tag_key_law, tag_law,
};
pub use manifest::{Manifest, read_manifest, write_manifest};
pub use ranges::{OwnedRange, back_range, kind_range, object_range, tag_key_range, tag_range};
pub use read_keys::{
    BackKey, CellKey, TagKey, read_back_key, read_cell_key, read_cell_value, read_reference_key,
    read_tag_key,
};
