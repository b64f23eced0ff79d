//! What is known of an object's last change.

ghost use Rattle.std.specs.Prelude.{◌≡◌, IfOk};
ghost use Rattle.osm_model.specs.Limits.{MetaInRange};

use crate::stamp::Stamp;
use crate::text::Text;
use std::alloc::{AllocError, Global};

/// The metadata of an object: who changed it last, and when (OpenStreetMap API 0.6).
///
/// What isn't known is 0, `None` or the empty text.
#[derive(Debug, Drop, PartialEq, Eq)]
pub struct Meta {
    /// How many versions the object has had.
    pub version: u32,
    /// The moment of the last change. It stands here to take no padding beside the version.
    pub stamp: Option<Stamp>,
    /// The changeset of the last change.
    pub changeset: i64,
    /// The number of the user who made it.
    pub uid: i64,
    /// The name of that user.
    pub user: Text,
}

impl Meta {
    /// A copy.
    pub(crate) fn copy(&self, alloc: Global) -> Result<Meta, AllocError>
        ensures { IfOk result (λ meta. meta ≡ self.now) }
    {
        Ok(Meta {
            version: self.version,
            stamp: self.stamp,
            changeset: self.changeset,
            uid: self.uid,
            user: self.user.copy(alloc)?,
        })
    }
}

/// Brings to a proof that the numbers of metadata are in the ranges of their types, and that the stamp
/// is a moment. It does nothing else.
pub(crate) fn note_numbers(meta: &Meta)
    ensures { MetaInRange meta.now }
{
    let _version = meta.version;
    let _changeset = meta.changeset;
    let _uid = meta.uid;
    if let Some(stamp) = meta.stamp {
        let _ = stamp.year();
    }
}
