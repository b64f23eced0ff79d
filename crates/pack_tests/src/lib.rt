//! Tests of external_sort, scratch_files, entry_sort, node_pack, pack_assembly and pack_build: records that are sorted
//! through stores, and packs as they are read and written.
//!
//! They are a crate of their own because a crate that has tests is proved twice, with them and without.
#![tactic(auto)]

#[cfg(test)]
mod tests;
