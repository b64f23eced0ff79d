//! Texts of objects.

ghost use Rattle.std.specs.Prelude.{◌≡◌, IfOk, Some, length, string_bytes, bytes_eq};
ghost use Rattle.std.proofs.Common.{refl};
ghost use Rattle.std.specs.Ordering.{nat_cmp};
ghost use Rattle.std.specs.Str.{IsUtf8};
ghost use Rattle.std.specs.Cmp.{partial_equiv_from_equiv};
ghost use Rattle.std.specs.Cmp.Lexicographic.{slice_cmp, nat_list_eq_equiv, nat_list_cmp_total, texts_ties, texts_po};

use crate::text_storage::TextStorage;
use std::alloc::{AllocError, Global};
use std::cmp::Ordering;
use std::marker::Model;

/// A text: a key, a value, a role or a user's name. Contracts see its bytes.
///
/// Texts are ordered by their bytes, and equal where these are. A text has no limit of its own: an
/// object's texts keep theirs.
#[derive(Debug, Drop)]
pub struct Text {
    content: TextStorage,
}

impl Model for Text {
    ghost use Rattle.std.specs.Prelude.{List, ℕ};
    ghost use Rattle.osm_model.specs.StoredTexts.{stored_bytes};

    ghost Value = { List ℕ };

    ghost view = { λ a. stored_bytes a.content };
}

impl Text {
    /// The text of this string. It takes no memory, and gives back that of a short string.
    pub fn new(content: String) -> Text
        ensures { result ≡ string_bytes content }
    {
        Text {
            content: TextStorage::from_string(content),
        }
    }

    /// A copy of this text. One of up to 16 bytes takes no memory.
    pub fn from_str(alloc: Global, content: &str) -> Result<Text, AllocError>
        ensures { IfOk result (λ text. text ≡ content.now) }
    {
        Ok(Text {
            content: TextStorage::from_str(alloc, content)?,
        })
    }

    /// A copy. One of up to 16 bytes takes no memory.
    pub(crate) fn copy(&self, alloc: Global) -> Result<Text, AllocError>
        ensures { IfOk result (λ text. text ≡ self.now) }
    {
        Text::from_str(alloc, self.as_str())
    }

    /// Its bytes, which are UTF-8.
    pub fn as_bytes(&self) -> &[u8]
        ensures { result.now ≡ self.now }
    {
        self.as_str().as_bytes()
    }

    /// The same as a `str`.
    pub fn as_str(&self) -> &str
        ensures { result.now ≡ self.now }
    {
        self.content.as_str()
    }

    /// How many bytes it has.
    pub fn len(&self) -> usize
        ensures { result ≡ length self.now }
    {
        self.as_str().len()
    }
}

impl PartialEq for Text {
    ghost eq = { λ a b. bytes_eq a b };

    ghost laws = { partial_equiv_from_equiv nat_list_eq_equiv };

    fn eq(&self, other: &Text) -> bool {
        self.as_bytes() == other.as_bytes()
    }
}

impl Eq for Text {
    ghost laws = { nat_list_eq_equiv };
}

impl PartialOrd for Text {
    ghost partial_cmp = { λ a b. Some (slice_cmp nat_cmp a b) };

    ghost laws = { texts_po };

    fn partial_cmp(&self, other: &Text) -> Option<Ordering> {
        Some(self.cmp(other))
    }
}

impl Ord for Text {
    ghost cmp = { λ a b. slice_cmp nat_cmp a b };

    ghost total = { nat_list_cmp_total };

    ghost matches_partial_cmp = { λ a b. refl };

    ghost matches_eq = { λ a b. texts_ties a b };

    fn cmp(&self, other: &Text) -> Ordering {
        self.as_bytes().cmp(other.as_bytes())
    }
}

/// Brings to a proof that a text is UTF-8. It does nothing else.
pub(crate) fn note_utf8(text: &Text)
    ensures { IsUtf8 text.now }
{
    let _ = text.content.as_str();
}
