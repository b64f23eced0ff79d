//! Readers of one token.

ghost use Rattle.std.specs.Prelude.{◌≡◌, Ok, IfOk, ℕ, List};
ghost use Rattle.std.specs.Str.Parse.{AllDigits};
ghost use Rattle.osm_model.specs.Degrees.{Spells};
ghost use Rattle.ql_syntax.specs.internal.Following.{Keeps};
ghost use Rattle.ql_syntax.specs.internal.NumberParts.{decimal_of};
ghost use Rattle.ql_syntax.specs.TokenRules.{pass, word_at, a_word, number_at, a_number, name_after, a_name, into};
ghost use Rattle.ql_syntax.specs.internal.Views.{the_rest, next_of, the_word, number_of, the_number, the_bytes};
ghost use Rattle.ql_syntax.specs.WholeNumbers.{id_of, count_of};

use crate::cause::QlCause;
use crate::name::Name;
use crate::number::{Number, split_number};
use crate::syntax_error::SyntaxError;
use crate::token::{Token, next_token};
use crate::token_kind::TokenKind;
use crate::whole::{count_of, id_of};
use crate::word::{split_name, split_run};

/// A word, where it begins, and what is left after it.
#[derive(Clone, Copy)]
pub(crate) struct WordSpot<'a> {
    /// The text from the word on.
    pub(crate) place: &'a [u8],
    /// The word.
    pub(crate) word: &'a [u8],
    /// What is left after it.
    pub(crate) rest: &'a [u8],
}

/// A number, and where it begins.
#[derive(Clone, Copy)]
pub(crate) struct NumberSpot<'a> {
    /// The text from the number on.
    pub(crate) place: &'a [u8],
    /// The number.
    pub(crate) number: Number<'a>,
}

impl<'a> NumberSpot<'a> {
    /// The id that the number is, of 64 bits with a sign. `NumberOutOfRange` at the number where it is
    /// none.
    pub(crate) fn id(self) -> Result<i64, SyntaxError<'a>>
        requires { AllDigits 10 self.number.whole.now }
        ensures { (text : List ℕ) → Keeps (id_of (number_of self.entry).number self.entry.place.now)
            (λ id. (id, text)) text result }
    {
        id_of(self.number).ok_or(SyntaxError::at(QlCause::NumberOutOfRange, self.place))
    }

    /// The count that the number is, of 64 bits without a sign. `NumberOutOfRange` at the number where it
    /// is none.
    pub(crate) fn count(self) -> Result<u64, SyntaxError<'a>>
        requires { AllDigits 10 self.number.whole.now }
        ensures { (text : List ℕ)
            → Keeps (count_of (number_of self.entry).number self.entry.place.now)
            (λ count. (count, text)) text result }
    {
        count_of(self.number).ok_or(SyntaxError::at(QlCause::NumberOutOfRange, self.place))
    }
}

/// What is left after this punctuation, which must come next.
#[inline(always)]
pub(crate) fn pass(text: &[u8], kind: TokenKind) -> Result<&[u8], SyntaxError<'_>>
    ensures { Keeps (pass kind) the_rest text.now result }
{
    let token = next_token(text)?;
    if token.is(kind) {
        Ok(token.rest)
    } else {
        Err(token.unexpected())
    }
}

/// The word that must come next.
pub(crate) fn next_word(text: &[u8]) -> Result<WordSpot<'_>, SyntaxError<'_>>
    ensures { Keeps a_word the_word text.now result }
{
    let token = next_token(text)?;
    match token.kind {
        TokenKind::Word => Ok(word_at(token)),
        _ => Err(token.unexpected()),
    }
}

/// The word that begins with this token.
#[inline(always)]
pub(crate) fn word_at(token: Token<'_>) -> WordSpot<'_>
    ensures { Keeps (word_at (next_of token.entry)) the_word token.entry.rest.now (Ok result) }
{
    let found = split_run(token.rest);
    WordSpot {
        place: token.place,
        word: found.run,
        rest: found.rest,
    }
}

/// The number that must come next.
#[inline(always)]
pub(crate) fn next_number(text: &[u8]) -> Result<NumberSpot<'_>, SyntaxError<'_>>
    ensures follows { Keeps a_number the_number text.now result }
    ensures spelled { IfOk result (λ spot. Spells spot.number.text.now (decimal_of spot.number)) }
    ensures digits { IfOk result (λ spot. AllDigits 10 spot.number.whole.now) }
{
    let token = next_token(text)?;
    match token.kind {
        TokenKind::Number | TokenKind::Minus => number_at(token),
        _ => Err(token.unexpected()),
    }
}

/// The number that begins with this token.
#[inline(always)]
pub(crate) fn number_at(token: Token<'_>) -> Result<NumberSpot<'_>, SyntaxError<'_>>
    ensures follows { Keeps (number_at (next_of token.entry)) the_number token.entry.rest.now result }
    ensures spelled { IfOk result (λ spot. Spells spot.number.text.now (decimal_of spot.number)) }
    ensures digits { IfOk result (λ spot. AllDigits 10 spot.number.whole.now) }
{
    let number = split_number(token.place)?;
    Ok(NumberSpot {
        place: token.place,
        number,
    })
}

/// The name of a set, which must come next.
#[inline(always)]
pub(crate) fn next_name(text: &[u8]) -> Result<(Name<'_>, &[u8]), SyntaxError<'_>>
    ensures { Keeps a_name the_bytes text.now result }
{
    let token = next_token(text)?;
    match token.kind {
        TokenKind::Dot => name_after(token),
        _ => Err(token.unexpected()),
    }
}

/// The name after its dot, which is this token.
#[inline(always)]
pub(crate) fn name_after(dot: Token<'_>) -> Result<(Name<'_>, &[u8]), SyntaxError<'_>>
    ensures { Keeps (name_after (next_of dot.entry)) the_bytes dot.entry.rest.now result }
{
    let found = split_name(dot.place, dot.rest)?;
    Ok((Name::new(found.run), found.rest))
}

/// The set that a statement writes to, and its end: `->` and a name, or nothing, and `;`.
#[inline(always)]
pub(crate) fn read_into(text: &[u8]) -> Result<(Name<'_>, &[u8]), SyntaxError<'_>>
    ensures { Keeps into the_bytes text.now result }
{
    let token = next_token(text)?;
    match token.kind {
        TokenKind::Arrow => {
            let (name, rest) = next_name(token.rest)?;
            let rest = pass(rest, TokenKind::Semicolon)?;
            Ok((name, rest))
        }
        TokenKind::Semicolon => Ok((Name::default_set(), token.rest)),
        _ => Err(token.unexpected()),
    }
}
