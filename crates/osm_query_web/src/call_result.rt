//! What comes of a call.

use osm_packs::NotAnswered;

/// What comes of a call.
#[derive(Drop)]
pub(crate) enum CallResult {
    /// There is an answer: its document.
    Document(Vec<u8>),
    /// Parts of the pack are missing: the table of them.
    Missing(Vec<u8>),
    /// There is no answer, for this reason.
    Refused(NotAnswered),
    /// Memory ran out.
    NoMemory,
}
