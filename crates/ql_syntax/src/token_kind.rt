//! Punctuation, and what else may begin at a place.

ghost use Rattle.std.specs.Prelude.{◌≡◌, ◌==◌};
ghost use Rattle.ql_syntax.specs.Words.{begins_with};
ghost use Rattle.ql_syntax.specs.TokenKinds.{token_kind_at, token_kind_from, one_byte_kind, kind_after_minus, kind_after_not, punctuation_len};

use crate::word::is_word_start;

/// What begins at a place: punctuation, the longest that stands there, or another token.
#[derive(Clone, Copy, PartialEq, Eq)]
pub(crate) enum TokenKind {
    /// The end of the text.
    End,
    /// A word.
    Word,
    /// A number: a digit, or `-` and a digit.
    Number,
    /// A text between quotes.
    Quote,
    /// `[`
    OpenBracket,
    /// `]`
    CloseBracket,
    /// `(`
    OpenParenthesis,
    /// `)`
    CloseParenthesis,
    /// `;`
    Semicolon,
    /// `,`
    Comma,
    /// `:`
    Colon,
    /// `=`
    Equal,
    /// `!=`
    NotEqual,
    /// `!~`
    NotTilde,
    /// `!`
    Not,
    /// `~`
    Tilde,
    /// `.`, perhaps before the name of a set.
    Dot,
    /// `-`
    Minus,
    /// `->`
    Arrow,
    /// `>`
    Down,
    /// `>>`
    DownAll,
    /// `<`
    Up,
    /// `<<`
    UpAll,
    /// A byte with which no token begins.
    Other,
}

impl TokenKind {
    /// How many bytes the punctuation has; 0 where it is none.
    pub(crate) fn len(self) -> usize
        ensures { result ≡ punctuation_len self }
    {
        match self {
            TokenKind::End
            | TokenKind::Word
            | TokenKind::Number
            | TokenKind::Quote
            | TokenKind::Other => 0,
            TokenKind::NotEqual
            | TokenKind::NotTilde
            | TokenKind::Arrow
            | TokenKind::DownAll
            | TokenKind::UpAll => 2,
            _ => 1,
        }
    }
}

/// What begins at this place of a text.
///
/// Most tokens are punctuation of one byte, so that is looked for first.
#[inline(always)]
pub(crate) fn token_kind_at(place: &[u8]) -> TokenKind
    ensures { result ≡ token_kind_at place.now }
{
    let [first, after @ ..] = place else {
        return TokenKind::End;
    };
    match one_byte_kind(*first) {
        TokenKind::Other => token_kind_from(*first, after),
        kind => kind,
    }
}

/// What begins with this byte before this rest.
fn token_kind_from(first: u8, after: &[u8]) -> TokenKind
    ensures { result ≡ token_kind_from first after.now }
{
    match first {
        byte if is_word_start(byte) => TokenKind::Word,
        b'0'..=b'9' => TokenKind::Number,
        b'"' | b'\'' => TokenKind::Quote,
        b'-' => kind_after_minus(after),
        b'!' => kind_after_not(after),
        b'>' if begins_with(after, b'>') => TokenKind::DownAll,
        b'>' => TokenKind::Down,
        b'<' if begins_with(after, b'<') => TokenKind::UpAll,
        b'<' => TokenKind::Up,
        byte => one_byte_kind(byte),
    }
}

/// What begins with a `-` before this rest.
fn kind_after_minus(after: &[u8]) -> TokenKind
    ensures { result ≡ kind_after_minus after.now }
{
    match after {
        [b'>', ..] => TokenKind::Arrow,
        [digit, ..] if digit.is_ascii_digit() => TokenKind::Number,
        _ => TokenKind::Minus,
    }
}

/// What begins with a `!` before this rest.
fn kind_after_not(after: &[u8]) -> TokenKind
    ensures { result ≡ kind_after_not after.now }
{
    match after {
        [b'=', ..] => TokenKind::NotEqual,
        [b'~', ..] => TokenKind::NotTilde,
        _ => TokenKind::Not,
    }
}

/// Whether a text begins with this byte.
fn begins_with(text: &[u8], byte: u8) -> bool
    ensures { result ≡ begins_with (λ b. b == byte) text.now }
{
    match text {
        [first, ..] => *first == byte,
        [] => false,
    }
}

/// The punctuation that is this byte alone.
#[inline(always)]
fn one_byte_kind(byte: u8) -> TokenKind
    ensures { result ≡ one_byte_kind byte }
{
    match byte {
        b'[' => TokenKind::OpenBracket,
        b']' => TokenKind::CloseBracket,
        b'(' => TokenKind::OpenParenthesis,
        b')' => TokenKind::CloseParenthesis,
        b';' => TokenKind::Semicolon,
        b',' => TokenKind::Comma,
        b':' => TokenKind::Colon,
        b'=' => TokenKind::Equal,
        b'.' => TokenKind::Dot,
        b'~' => TokenKind::Tilde,
        _ => TokenKind::Other,
    }
}
