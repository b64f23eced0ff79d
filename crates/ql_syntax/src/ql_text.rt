//! Keys and values of filters.

ghost use Rattle.std.specs.Prelude.{◌≡◌};

use std::alloc::Global;
use std::borrow::CowSlice;
use std::marker::Model;

/// A key or a value of a filter, with its escapes read. Contracts see its bytes.
///
/// It borrows the text of the query, but where an escape stands in it. It has no limit but that of the
/// query.
#[derive(Debug, Drop)]
pub struct QlText<'a> {
    content: CowSlice<'a, u8, Global>,
}

impl<'a> Model for QlText<'a> {
    ghost use Rattle.std.specs.Cow.{cow_slice_items};
    ghost use Rattle.std.specs.Prelude.{List, ℕ};

    ghost Value = { List ℕ };

    ghost view = { λ a. cow_slice_items a.content };
}

impl<'a> QlText<'a> {
    /// The text of these bytes, which stand so in the query.
    pub(crate) fn borrowed(bytes: &'a [u8]) -> QlText<'a>
        ensures { result ≡ bytes.now }
    {
        QlText {
            content: CowSlice::Borrowed(bytes),
        }
    }

    /// The text of these bytes.
    pub(crate) fn owned(bytes: Vec<u8>) -> QlText<'a>
        ensures { result ≡ bytes.items }
    {
        QlText {
            content: CowSlice::Owned(bytes),
        }
    }

    /// Its bytes.
    pub fn as_bytes(&self) -> &[u8]
        ensures { result.now ≡ self.now }
    {
        &self.content
    }
}
