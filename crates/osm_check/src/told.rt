//! What the teller answers.

use crate::why::Why;
use ql_eval::Report;

/// What the teller answers.
#[derive(Debug, Drop)]
pub enum Told {
    /// The answer to the query, as the proof shows it.
    Answer {
        /// Its objects one after the other, in the form that was asked for; `Form::write_document` makes a
        /// document of them.
        text: Vec<u8>,
        /// What the evaluation over the proof's nodes did.
        report: Report,
    },
    /// The proof shows no answer, for this reason, which is never `AnswerDiffers`.
    No(Why),
}
