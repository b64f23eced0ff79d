//! Why there is no answer.

use outside_shelf::Refused;
use ql_eval::EvalFault;
use thiserror::Error;

/// Why there is no answer.
#[derive(Clone, Copy, Debug, PartialEq, Eq, Error)]
pub enum AnswerFault {
    /// The source gave no node where one was needed, for this reason.
    #[error("{0}")]
    Source(Refused),
    /// The evaluation refused the nodes that were given, or its work was too much: `E1` to `E4`, `no memory` or
    /// `too much work`.
    #[error("{0}")]
    Evaluation(EvalFault),
}
