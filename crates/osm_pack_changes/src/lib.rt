//! The commands `pack --add` and `pack --compact`, over readers and writers.
//!
//! [`add_to_pack`] makes of a set whose nodes stand in files the next one, by the changes of a file: it writes the new nodes to one
//! more file, then the head that names it, and tells the new root. [`compact_pack`] writes such a set as one pack. The files that are
//! there never change.
#![tactic(auto)]

mod add_command;
mod compact_command;
mod manifest;
mod next_head;
mod not_added;
mod not_compacted;

pub use add_command::add_to_pack;
pub use compact_command::compact_pack;
pub use manifest::manifest_place;
pub use not_added::NotAdded;
pub use not_compacted::NotCompacted;
