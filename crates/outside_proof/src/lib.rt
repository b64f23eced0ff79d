//! Answers and proofs that a mirror makes of nodes of which nothing is known.
//!
//! [`prove_over`] and [`answer_over`] give what [`osm_prove::prove_within`] and [`osm_prove::answer_within`] give of a snapshot,
//! over a shelf that is lent to them ([`outside_shelf::ProofShelf`]): one over a pack file, or over nodes that were kept and
//! such a file. The query was parsed before. They trust what the shelf gives in nothing: what they give is the query's meaning
//! and its one proof under the root, or there is none.
#![tactic(auto)]

mod answerer;
mod evaluation;
mod fault;
mod listing;
mod prover;

pub use answerer::answer_over;
pub use fault::OutsideFault;
pub use prover::{AnswerAndProof, prove_over};
