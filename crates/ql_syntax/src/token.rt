//! Tokens, where they begin.

ghost use Rattle.std.specs.Prelude.{◌≡◌, true, false};
ghost use Rattle.ql_syntax.specs.internal.Following.{Keeps};
ghost use Rattle.ql_syntax.specs.TokenRules.{next_token};
ghost use Rattle.ql_syntax.specs.internal.TokenParts.{IsUnexpected};
ghost use Rattle.ql_syntax.specs.internal.Views.{the_token};

use crate::cause::QlCause;
use crate::gap::skip_gap;
use crate::syntax_error::SyntaxError;
use crate::token_kind::{TokenKind, token_kind_at};

/// The place of the next token, after blanks and comments.
#[derive(Clone, Copy)]
pub(crate) struct Token<'a> {
    /// What begins there.
    pub(crate) kind: TokenKind,
    /// The text from there on.
    pub(crate) place: &'a [u8],
    /// What is left after it, where it is punctuation; else the same as the place.
    pub(crate) rest: &'a [u8],
}

/// The next token of a text.
///
/// A comment that isn't closed is `Unclosed` at its first byte. It takes no memory.
#[inline(always)]
pub(crate) fn next_token(text: &[u8]) -> Result<Token<'_>, SyntaxError<'_>>
    ensures { Keeps next_token the_token text.now result }
{
    let place = skip_gap(text)?;
    let kind = token_kind_at(place);
    let rest = &place[kind.len().min(place.len())..];
    Ok(Token { kind, place, rest })
}

impl<'a> Token<'a> {
    /// Whether this begins here.
    pub(crate) fn is(&self, kind: TokenKind) -> bool
        ensures yes { result ≡ true → self.now.kind ≡ kind }
        ensures no { result ≡ false → self.now.kind ≡ kind → ⊥ }
    {
        self.kind == kind
    }

    /// The error at a token that can't stand where it does: `UnexpectedEnd` at the end,
    /// `UnexpectedWord` at a word, and else `UnexpectedCharacter`.
    pub(crate) fn unexpected(self) -> SyntaxError<'a>
        ensures { IsUnexpected self.entry.kind self.entry.place.now result.cause result.rest.now }
    {
        let cause = match self.kind {
            TokenKind::End => QlCause::UnexpectedEnd,
            TokenKind::Word => QlCause::UnexpectedWord,
            _ => QlCause::UnexpectedCharacter,
        };
        SyntaxError::at(cause, self.place)
    }
}
