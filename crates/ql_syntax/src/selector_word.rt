//! The words that may begin a filter in parentheses.

ghost use Rattle.std.specs.Prelude.{◌≡◌};
ghost use Rattle.ql_syntax.specs.SelectorWords.{path_of, is_unsupported, selector_word};

use crate::path::Path;
use crate::pick::Pick;

/// What the first word of a filter in parentheses begins.
#[derive(Clone, Copy)]
pub(crate) enum SelectorWord {
    /// Ids: `id`.
    Ids,
    /// A path that the kind allows.
    Along(Path),
    /// What the profile leaves out.
    Unsupported,
    /// No filter.
    Unknown,
}

/// What this word begins after a kind.
pub(crate) fn selector_word(pick: Pick, word: &[u8]) -> SelectorWord
    ensures { result ≡ selector_word pick word.now }
{
    match word {
        b"id" => SelectorWord::Ids,
        _ if is_unsupported(word) => SelectorWord::Unsupported,
        _ => match path_of(word) {
            Some(path) if pick.allows(path) => SelectorWord::Along(path),
            Some(_) => SelectorWord::Unsupported,
            None => SelectorWord::Unknown,
        },
    }
}

/// The path with this name.
fn path_of(word: &[u8]) -> Option<Path>
    ensures { result ≡ path_of word.now }
{
    match word {
        b"w" => Some(Path::W),
        b"r" => Some(Path::R),
        b"bn" => Some(Path::Bn),
        b"bw" => Some(Path::Bw),
        b"br" => Some(Path::Br),
        _ => None,
    }
}

/// Whether the profile leaves out the filter that this word begins.
fn is_unsupported(word: &[u8]) -> bool
    ensures { result ≡ is_unsupported word.now }
{
    [
        b"around".as_slice(),
        b"poly",
        b"changed",
        b"newer",
        b"user",
        b"uid",
        b"area",
        b"pivot",
        b"if",
    ]
    .contains(&word)
}
