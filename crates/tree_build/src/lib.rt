//! Trees of sorted lists of entries, built for a publisher.
//!
//! [`build`] makes of a list the nodes of its tree and puts them into a stock; the digest that it gives
//! stands for the whole list. [`rebuild`] tells how the tree of a changed list differs from that of the
//! old one, and reads few of its nodes. The crate's laws say what a tree is good for: it is that of one
//! list alone, it is shallow, and each of its nodes reads back.
#![tactic(auto)]

mod builder;
mod change;
mod cut;
mod fault;
mod finish;
mod fits;
mod grow_top;
mod inner;
mod laws;
mod leaf;
mod leaf_item;
mod level_diff;
mod level_item;
mod levels;
mod merge;
mod node_merge;
mod old_node;
mod open_piece;
mod parent_changes;
mod piece;
mod rebuild_fault;
mod rebuilder;
mod rebuilt;
mod seek;
mod shape;
mod shrink_top;
mod step;

pub use builder::build;
pub use change::EntryChange;
pub use fault::BuildFault;
pub use laws::{
    changed_list_law, cuts_law, determines_law, entries_law, levels_law, nodes_law, pieces_law,
};
pub use rebuild_fault::RebuildFault;
pub use rebuilder::rebuild;
pub use rebuilt::Rebuilt;
pub use shape::Shape;
pub use tree_node::Item as Entry;
