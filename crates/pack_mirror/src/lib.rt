//! Packs as mirrors.
//!
//! A [`PackMirror`] is what a gate asks ([`osm_gate::Mirror`]), over a pack file in place of a snapshot in memory. The file is
//! trusted in nothing: what it gives for a query is the answer under the root that was read when it was opened, or there is
//! none. Nodes that were digested for a query are kept for later ones, as far as a limit goes.
#![tactic(auto)]

mod answering;
mod asking;
mod faults;
mod gained;
mod kept;
mod lent;
mod mirror;
mod queries;

pub use mirror::{PackMirror, STOCK_LIMIT};
