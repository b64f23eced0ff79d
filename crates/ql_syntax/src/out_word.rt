//! The words after `out`.

ghost use Rattle.std.specs.Prelude.{◌≡◌};
ghost use Rattle.ql_syntax.specs.OutWords.{is_unsupported, out_word};

use osm_model::OutMode;

/// What a word after `out` asks for.
#[derive(Clone, Copy)]
pub(crate) enum OutWord {
    /// A mode: `ids`, `tags`, `skel`, `body` or `meta`.
    Mode(OutMode),
    /// An order, which has no effect: `asc` or `qt`.
    Order,
    /// What the profile leaves out.
    Unsupported,
    /// Nothing.
    Unknown,
}

/// What this word asks for.
pub(crate) fn out_word(word: &[u8]) -> OutWord
    ensures { result ≡ out_word word.now }
{
    match word {
        _ if is_unsupported(word) => OutWord::Unsupported,
        b"ids" => OutWord::Mode(OutMode::Ids),
        b"tags" => OutWord::Mode(OutMode::Tags),
        b"skel" => OutWord::Mode(OutMode::Skel),
        b"body" => OutWord::Mode(OutMode::Body),
        b"meta" => OutWord::Mode(OutMode::Meta),
        b"asc" | b"qt" => OutWord::Order,
        _ => OutWord::Unknown,
    }
}

/// Whether the profile leaves out what this word asks for.
fn is_unsupported(word: &[u8]) -> bool
    ensures { result ≡ is_unsupported word.now }
{
    [b"count".as_slice(), b"geom", b"center", b"bb", b"noids"].contains(&word)
}
