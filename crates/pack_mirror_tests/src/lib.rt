//! Tests of pack_mirror.
//!
//! They are a crate of their own because a crate that has tests is proved twice, with them and without.
#![tactic(auto)]

#[cfg(test)]
mod devices;
#[cfg(test)]
mod tests;
