//! How a query is replied to.

use crate::endpoint::Endpoint;

/// What is given for a query, and how its connection goes on.
#[derive(Clone, Copy)]
pub(crate) struct Reply {
    /// What is given.
    pub(crate) endpoint: Endpoint,
    /// The connection ends after the response.
    pub(crate) closes: bool,
}
