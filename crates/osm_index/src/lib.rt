//! The digest trees of a set of objects: how they are built and changed, and the root that stands for them.
//!
//! [`Snapshot::build`] builds all four trees and makes the manifest and the root; [`Snapshot::apply`] changes them, and
//! [`Snapshot::apply_announced`] does so where the new root is one that was announced.
//! [`UpdatePlan`] makes the same of a publication whose trees any shelf gives, as a pack does.
//! [`entries_of`] lists the entries of one tree. What the trees hold, and the keys in which a question about a set is
//! answered, stand in `osm_keys`, whose items this crate exports too.
#![tactic(auto)]

mod all_objects;
mod announced_fault;
mod apply_fault;
mod build_progress;
mod change_refusals;
mod changed_trees;
mod delta;
mod digits;
mod edition_after;
mod entry_changes;
mod entry_list;
mod fault;
mod held_tree;
mod laws;
mod listing;
mod named_objects;
mod node_changes;
mod object_changes;
mod prefixed_entry;
mod put_objects;
mod snapshot;
mod sort_entries;
mod tree_changes;
mod update;
mod update_fault;
mod update_plan;

pub use announced_fault::AnnouncedFault;
pub use apply_fault::ApplyFault;
pub use build_progress::{BuildProgress, Unwatched};
pub use delta::Delta;
pub use entry_list::EntryList;
pub use fault::IndexFault;
pub use laws::{changes_law, snapshot_law};
pub use listing::entries_of;
pub use osm_keys::{
    BackKey, CellKey, Edition, Manifest, OwnedRange, TagKey, append_tag_key, back_key, back_law,
    back_range, cell_key, cell_law, cell_ranges, cell_value, entries_are_bytes, key_order_law,
    kind_law, kind_range, manifest_law, object_law, object_range, publication_law, read_back_key,
    read_cell_key, read_cell_value, read_manifest, read_reference_key, read_tag_key, reference_key,
    tag_key_law, tag_key_range, tag_law, tag_range, write_manifest,
};
pub use snapshot::Snapshot;
pub use update::Update;
pub use update_fault::UpdateFault;
pub use update_plan::UpdatePlan;
