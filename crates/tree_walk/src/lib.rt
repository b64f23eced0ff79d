//! Walks over trees of which only some nodes are at hand.
//!
//! [`range`] gives exactly the entries of a tree whose keys are in a range, or a named fault, whatever nodes the shelf
//! gives; [`count`] gives only their number. A [`KeyRange`] says which keys are in it, which nodes of a tree a walk has to
//! open for it, and which a count may leave closed; it compares a few borrowed keys for that. The crate's laws say why
//! its answers are right.
#![tactic(auto)]

mod descent;
mod fault;
mod gather;
mod key_range;
mod laws;
mod pending;
mod tally;
mod visit;
mod walk;

pub use fault::WalkFault;
pub use key_range::KeyRange;
pub use laws::{
    covered_law, empty_law, entered_law, found_law, inside_law, left_edge_law, point_law,
    prefix_law, spans_law, wider_law,
};
pub use tally::Tally;
pub use tree_node::Item;
pub use walk::{count, range, range_within};
