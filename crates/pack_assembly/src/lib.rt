//! Packs of trees that are larger than memory.
//!
//! [`write_pack_of_levels`] writes the pack of a publication whose trees' levels can be read again node by node. The
//! nodes' lengths are read first, then the nodes in the order of the records. What is held in memory is one node at a
//! time and a number for each level.
#![tactic(auto)]

mod apart;
mod digests;
mod fault;
mod front;
mod layout;
mod level;
mod pack;
mod record;
mod refusal;
mod row;
mod table;
mod trees;
mod unwritten;

pub use fault::AssemblyFault;
pub use pack::write_pack_of_levels;
pub use trees::BuiltTrees;
