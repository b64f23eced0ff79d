//! How much may be done for a query.

/// How much may be done for a query. Without a number there is no limit.
#[derive(Clone, Copy, Debug, PartialEq, Eq)]
pub struct Limits {
    /// How many bytes of nodes may be read, also of nodes that are refused.
    pub bytes: Option<u64>,
    /// How much work the evaluation may do, as [`ql_eval::evaluate_within`] counts it.
    pub work: Option<u64>,
}
