//! Where the bytes of a text lie.

ghost use Rattle.std.specs.Prelude.{◌≡◌, IfOk, string_bytes};
ghost use Rattle.std.specs.Str.{IsUtf8};
ghost use Rattle.osm_model.specs.StoredTexts.{stored_bytes};

use arrayvec::ArrayString;
use std::alloc::{AllocError, Global};

/// The most bytes of a text that lie in the value itself. Most names of users, keys, values and roles
/// have no more, and then take no memory of their own.
const INLINE_LIMIT: usize = 16;

/// The bytes of a text.
#[derive(Debug, Drop)]
pub(crate) enum TextStorage {
    /// They lie in the value itself.
    Inline(ArrayString<INLINE_LIMIT>),
    /// There are too many.
    Heap(String),
}

impl TextStorage {
    /// A copy of these bytes.
    pub(crate) fn from_str(alloc: Global, content: &str) -> Result<TextStorage, AllocError>
        ensures { IfOk result (λ stored. stored_bytes stored ≡ content.now) }
    {
        match ArrayString::from(content) {
            Ok(text) => Ok(TextStorage::Inline(text)),
            Err(_) => Ok(TextStorage::Heap(String::from_str(alloc, content)?)),
        }
    }

    /// The bytes of this string, which is kept only where they don't fit the value itself.
    pub(crate) fn from_string(content: String) -> TextStorage
        ensures { stored_bytes result ≡ string_bytes content }
    {
        match ArrayString::from(content.as_str()) {
            Ok(text) => TextStorage::Inline(text),
            Err(_) => TextStorage::Heap(content),
        }
    }

    /// The text.
    pub(crate) fn as_str(&self) -> &str
        ensures bytes { result.now ≡ stored_bytes self.now }
        ensures utf8 { IsUtf8 (stored_bytes self.now) }
    {
        match self {
            TextStorage::Inline(text) => text.as_str(),
            TextStorage::Heap(text) => text.as_str(),
        }
    }
}
