//! The trees of a set that is larger than memory, level by level on a device.
//!
//! A [`TreesBuilder`] takes the entries of the four trees of a set as they come, and puts each node that they complete into
//! a store for its level. [`StoredLevels`] reads the nodes of each level again in their order, and beside that their
//! lengths alone, which stand in a store of their own.
#![tactic(auto)]

mod level_file;
mod level_writer;
mod node_reader;
mod row;
mod row_reader;
mod stored_level;
mod stored_levels;
mod tree_writer;
mod trees_builder;

pub use stored_levels::StoredLevels;
pub use trees_builder::{FinishedTrees, TreesBuilder};
