//! Names of sets.

ghost use Rattle.std.specs.Prelude.{◌≡◌, codes};

use std::marker::Model;

/// The name of a set, without its dot. It borrows the text of the query; contracts see its bytes.
///
/// A name is a letter or `_` and then letters, digits and `_`, all of ASCII. The default set is `_`.
#[derive(Debug, Drop)]
pub struct Name<'a> {
    word: &'a [u8],
}

impl<'a> Model for Name<'a> {
    ghost use Rattle.std.specs.Prelude.{List, ℕ};

    ghost Value = { List ℕ };

    ghost view = { λ a. a.word.now };
}

impl<'a> Name<'a> {
    /// The name that is this word.
    pub(crate) fn new(word: &'a [u8]) -> Name<'a>
        ensures { result ≡ word.now }
    {
        Name { word }
    }

    /// The name of the default set.
    pub(crate) fn default_set() -> Name<'a>
        ensures { result ≡ codes "_" }
    {
        Name { word: b"_" }
    }

    /// Its bytes.
    pub fn as_bytes(&self) -> &'a [u8]
        ensures { result.now ≡ self.now }
    {
        self.word
    }
}
