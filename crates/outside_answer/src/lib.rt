//! Answers that a client finds by itself, from nodes of which nothing is known.
//!
//! [`answer_from`] evaluates a query over a shelf of nodes from anywhere, such as a file or a server, and trusts none of them: an
//! answer is the query's meaning under the root, or there is none.
#![tactic(auto)]

mod answer;
mod fault;

pub use answer::answer_from;
pub use fault::AnswerFault;
