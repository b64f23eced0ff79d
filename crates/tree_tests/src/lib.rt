//! Tests of tree_node, tree_build, tree_walk, tree_stream, level_files and outside_shelf.
//!
//! They are a crate of their own because a crate that has tests is proved twice, with them and without.
#![tactic(auto)]

#[cfg(test)]
mod tests;
