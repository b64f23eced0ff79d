//! Tests of the crates that answer queries: ql_plain, ql_eval, osm_prove, osm_check, osm_gate.
//!
//! They are a crate of their own because a crate that has tests is proved twice, with them and without.
#![tactic(auto)]

#[cfg(test)]
mod tests;
