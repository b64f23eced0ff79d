//! Nodes, trees that are built as a whole, as a stream or through a device, walks over trees, and shelves over sources of
//! nodes.

mod by_hand;
mod codes;
mod digests;
mod levels;
mod nodes;
mod outside;
mod streams;
mod trees;
mod walks;
mod whole_trees;
