//! Why the entries of a file aren't given.

use opl_codec::LoadFault;
use thiserror::Error;

/// Why the entries of a file weren't given.
#[derive(Clone, Copy, Debug, PartialEq, Eq, Error)]
pub enum EntryFault {
    /// The file holds no set: the line that can't be read, and its fault.
    #[error("{0}")]
    Load(LoadFault),
    /// A tree of the set has more than 2^29 entries.
    #[error("too many entries")]
    TooMany,
    /// Memory was refused.
    #[error("no memory")]
    Memory,
    /// A device failed.
    #[error("the device failed")]
    Device,
}
