//! What a query is asked for.

/// What a path that takes queries gives.
#[derive(Clone, Copy)]
pub(crate) enum Endpoint {
    /// The answer alone.
    Answer,
    /// What a client can check: the root, the answer and its proof.
    AnswerWithProof,
}
