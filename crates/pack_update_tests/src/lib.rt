//! Tests of pack_update and pack_compact: changes that are added to the files of small and of larger sets, packs that are written of
//! such files, and refusals.
//!
//! They are a crate of their own because a crate that has tests is proved twice, with them and without.
#![tactic(auto)]

#[cfg(test)]
mod tests;
