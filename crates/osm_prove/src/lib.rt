//! Answers with their proofs, as a mirror gives them, and the form of proofs.
//!
//! [`prove`] answers a query over a [`Snapshot`](osm_index::Snapshot) and gives the proof of it: the nodes of
//! the snapshot's trees from which the answer follows, and no others. [`answer`] gives the answer alone. [`prove_within`]
//! and [`answer_within`] do so within a budget.
//! [`write_proof`] and [`read_proof`] are the two ways between nodes and the bytes that list them.
#![tactic(auto)]

mod answered;
mod answerer;
mod evaluation;
mod laws;
mod proof_fault;
mod proof_reader;
mod proof_writer;
mod prove_fault;
mod proved;
mod prover;
mod query_reader;

pub use answered::Answered;
pub use answerer::{answer, answer_within};
pub use laws::{one_listing, one_proof};
pub use proof_fault::ProofFault;
pub use proof_reader::read_proof;
pub use proof_writer::write_proof;
pub use prove_fault::ProveFault;
pub use proved::Proved;
pub use prover::{prove, prove_within};
