//! The digest trees of a set of objects whose lines are nodes: how they are built, and the root that stands for them.
//!
//! Each object's canonical line is a node of its own here, and each entry of a tree states the digest of the line of
//! the object that it names. [`LightSnapshot::build`] puts the lines and all four trees into one stock and makes the
//! manifest and the root; [`light_entries_of`] lists the entries of one tree. The keys, the values and the manifest are
//! those of `light_keys`. Nothing here changes, walks or asks such trees.
#![tactic(auto)]

mod laws;
mod light_entry_list;
mod light_listing;
mod light_snapshot;
mod lines;
mod put_lines;
mod put_manifest;
mod put_trees;

pub use laws::{
    light_entries_are_bytes, light_nodes_law, light_publication_law, light_snapshot_law,
};
pub use light_entry_list::LightEntryList;
pub use light_listing::light_entries_of;
pub use light_snapshot::LightSnapshot;
pub use lines::line_nodes;
