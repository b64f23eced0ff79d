//! Tags.

ghost use Rattle.std.specs.Prelude.{◌≡◌, All, IfOk};
ghost use Rattle.std.specs.Str.{IsUtf8};

use crate::text::{Text, note_utf8};
use std::alloc::{AllocError, Global};

/// A tag: a key and its value. The keys of an object's tags differ (OpenStreetMap API 0.6).
#[derive(Debug, Drop, PartialEq, Eq)]
pub struct Tag {
    /// The key, which may be empty.
    pub key: Text,
    /// The value, which may be empty.
    pub value: Text,
}

impl Tag {
    /// A copy.
    pub(crate) fn copy(&self, alloc: Global) -> Result<Tag, AllocError>
        ensures { IfOk result (λ tag. tag ≡ self.now) }
    {
        Ok(Tag {
            key: self.key.copy(alloc)?,
            value: self.value.copy(alloc)?,
        })
    }
}

/// Brings to a proof that the keys and values of tags are UTF-8. It does nothing else.
pub(crate) fn note_tags(tags: &[Tag])
    ensures { All (λ tag. IsUtf8 tag.key × IsUtf8 tag.value) tags.now }
{
    for tag in tags {
        note_utf8(&tag.key);
        note_utf8(&tag.value);
    }
}
