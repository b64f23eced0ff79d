//! The checker: from a query, a root, an answer and a proof alone it tells whether the answer is right.
//!
//! [`check`] evaluates the query over the nodes of the proof and compares what comes out with the answer, in a
//! time that grows with the proof and not with the set. [`tell`] needs no answer: it gives the one that the proof
//! shows, in any form. [`check_within`] and [`tell_within`] do so within a budget.
#![tactic(auto)]

mod check_fault;
mod checker;
mod laws;
mod matcher;
mod reasons;
mod teller;
mod told;
mod verdict;
mod why;

pub use check_fault::CheckFault;
pub use checker::{check, check_within};
pub use laws::{one_verdict, under_root};
pub use matcher::Matcher;
pub use ql_eval::Report;
pub use teller::{tell, tell_within};
pub use told::Told;
pub use tree_node::Digest;
pub use verdict::Verdict;
pub use why::Why;
