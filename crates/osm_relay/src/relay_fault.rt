//! Why relaying ends.

use thiserror::Error;

/// Why no further client is answered.
#[derive(Clone, Copy, Debug, PartialEq, Eq, Error)]
pub enum RelayFault {
    /// Memory was refused.
    #[error("no memory")]
    Memory,
    /// The sockets can't be waited at, or none can be taken.
    #[error("device")]
    Device,
    /// 2^64 things have happened.
    #[error("endless")]
    Endless,
}
