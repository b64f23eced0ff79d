//! The words that may begin a statement.

ghost use Rattle.std.specs.Prelude.{◌≡◌};
ghost use Rattle.ql_syntax.specs.StatementWords.{statement_word, known_word, is_unsupported};

use crate::pick::Pick;

/// What the first word of a statement begins.
#[derive(Clone, Copy)]
pub(crate) enum StatementWord {
    /// A query statement: `node`, `way`, `rel` or `relation`, `nwr`.
    Kind(Pick),
    /// An out statement: `out`.
    Print,
    /// A statement that the profile leaves out.
    Unsupported,
    /// No statement.
    Unknown,
}

/// What this word begins.
pub(crate) fn statement_word(word: &[u8]) -> StatementWord
    ensures { result ≡ statement_word word.now }
{
    match known_word(word) {
        Some(known) => known,
        None if is_unsupported(word) => StatementWord::Unsupported,
        None => StatementWord::Unknown,
    }
}

/// The statement of the profile that this word begins.
fn known_word(word: &[u8]) -> Option<StatementWord>
    ensures { result ≡ known_word word.now }
{
    match word {
        b"node" => Some(StatementWord::Kind(Pick::Node)),
        b"way" => Some(StatementWord::Kind(Pick::Way)),
        b"rel" | b"relation" => Some(StatementWord::Kind(Pick::Rel)),
        b"nwr" => Some(StatementWord::Kind(Pick::Nwr)),
        b"out" => Some(StatementWord::Print),
        _ => None,
    }
}

/// Whether the profile leaves out the statement that this word begins: a block statement, a standalone query or a kind of
/// query statement.
fn is_unsupported(word: &[u8]) -> bool
    ensures { result ≡ is_unsupported word.now }
{
    [
        b"foreach".as_slice(),
        b"for",
        b"if",
        b"complete",
        b"retro",
        b"compare",
        b"make",
        b"convert",
        b"map_to_area",
        b"is_in",
        b"timeline",
        b"local",
        b"area",
        b"derived",
        b"nw",
        b"nr",
        b"wr",
    ]
    .contains(&word)
}
