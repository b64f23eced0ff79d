//! Trees of lists that are larger than memory.
//!
//! A [`TreeStream`] takes the entries of a list one at a time, in rising order of their keys, and hands each node of
//! the list's tree to a [`NodeWriter`] as soon as it is complete. These are the nodes, level by level in their order,
//! that `tree_build::build` makes of the same list, and the top is the same. What it holds doesn't grow with the list:
//! at most 64 entries of a leaf and, for each level over the leaves, at most 64 items.
#![tactic(auto)]

mod add;
mod ends;
mod fault;
mod finish;
mod finished;
mod leaf;
mod level;
mod levels;
mod levels_read;
mod node_sum;
mod stream;
mod writer;

pub use fault::{StreamFault, WriterFault};
pub use finished::FinishedTree;
pub use levels_read::{NodeLen, NodeLevels, ReadBackFault};
pub use stream::TreeStream;
pub use writer::NodeWriter;
