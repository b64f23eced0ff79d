//! Tests of byte_io, osm_model, opl_codec, ql_syntax, ql_plan, ref_sets and http_messages: pieces of bytes, objects, their
//! text, the text of queries and their plans, sets of references, lengths that fields state, and responses as they are written.
//!
//! They are a crate of their own because a crate that has tests is proved twice, with them and without.
#![tactic(auto)]

#[cfg(test)]
mod tests;
