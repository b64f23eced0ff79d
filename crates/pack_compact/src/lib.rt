//! One pack in place of several files.
//!
//! A publisher's changes go to further files. [`compact_files`] reads the publication that they all hold, and writes it as a
//! pack, in memory that doesn't grow with the set.
#![tactic(auto)]

mod compact;
mod copy;
mod fault;

pub use compact::compact_files;
pub use fault::CompactFault;
