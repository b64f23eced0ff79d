//! Packs of sets that are larger than memory.
//!
//! [`build_pack`] reads a file of objects and writes the pack of their publication. What it holds in memory is bounded: the
//! entries of the trees are sorted on a device, and the nodes are kept there until the pack is put together ([`write_trees`]).
#![tactic(auto)]

mod build;
mod fault;
mod sink;
mod taken;

pub use build::{build_pack, shape_of, write_trees};
pub use fault::BuildFault;
