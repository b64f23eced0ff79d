//! Tests of outside_answer.
//!
//! They are a crate of their own because a crate that has tests is proved twice, with them and without.
#![tactic(auto)]

#[cfg(test)]
mod packs;
#[cfg(test)]
mod remote;
#[cfg(test)]
mod tests;
