//! What an out statement says of its answer.

ghost use Rattle.std.specs.Prelude.{ℕ, List};
ghost use Rattle.ql_syntax.specs.internal.Following.{Keeps};
ghost use Rattle.ql_syntax.specs.Outs.{once, with_word, with_number, out_round, out_options};
ghost use Rattle.ql_syntax.specs.internal.Views.{number_of, the_options, the_option_round, word_of};
ghost use Rattle.std.specs.Str.Parse.{AllDigits};

use crate::cause::QlCause;
use crate::out_word::{OutWord, out_word};
use crate::round::Round;
use crate::syntax_error::SyntaxError;
use crate::token::next_token;
use crate::token_kind::TokenKind;
use crate::token_readers::{NumberSpot, WordSpot, number_at, word_at};
use osm_model::OutMode;

/// What the words and the number after `out` say.
#[derive(Clone, Copy)]
pub(crate) struct OutOptions {
    /// The mode.
    pub(crate) mode: Option<OutMode>,
    /// Whether an order was asked for. It has no effect.
    pub(crate) ordered: bool,
    /// How many objects are printed at most.
    pub(crate) limit: Option<u64>,
}

/// The options after `out`, and what is left after their `;`.
///
/// `UnexpectedWord` at a second mode, order or number, and at a word that is none of them;
/// `Unsupported` at a word that the profile leaves out, and at a `(`.
pub(crate) fn read_out_options(text: &[u8]) -> Result<(OutOptions, &[u8]), SyntaxError<'_>>
    ensures { Keeps out_options the_options text.now result }
{
    let mut options = OutOptions {
        mode: None,
        ordered: false,
        limit: None,
    };
    let mut place = text;
    loop {
        let (round, seen, rest) = read_round(options, place)?;
        match round {
            Round::More => {
                options = seen;
                place = rest;
            }
            Round::Done => return Ok((seen, rest)),
        }
    }
}

/// The options with one more, whether another may follow, and what is left after it.
fn read_round<'a>(
    seen: OutOptions,
    text: &'a [u8],
) -> Result<(Round, OutOptions, &'a [u8]), SyntaxError<'a>>
    ensures { Keeps (out_round seen) the_option_round text.now result }
{
    let token = next_token(text)?;
    match token.kind {
        TokenKind::Word => {
            let word = word_at(token);
            let more = seen.with_word(word)?;
            Ok((Round::More, more, word.rest))
        }
        TokenKind::Number | TokenKind::Minus => {
            let number = number_at(token)?;
            let more = seen.with_number(number)?;
            Ok((Round::More, more, number.number.rest))
        }
        TokenKind::OpenParenthesis => { Err(SyntaxError::at(QlCause::Unsupported, token.place)) }
        TokenKind::Semicolon => Ok((Round::Done, seen, token.rest)),
        _ => Err(token.unexpected()),
    }
}

impl OutOptions {
    /// The options with this word too.
    fn with_word(self, word: WordSpot<'_>) -> Result<OutOptions, SyntaxError<'_>>
        ensures { (text : List ℕ) → Keeps (with_word self (word_of word.entry))
            (λ options. (options, text)) text result }
    {
        match out_word(word.word) {
            OutWord::Mode(mode) => once(
                self.mode.is_some(),
                word.place,
                OutOptions {
                    mode: Some(mode),
                    ..self
                },
            ),
            OutWord::Order => once(
                self.ordered,
                word.place,
                OutOptions {
                    ordered: true,
                    ..self
                },
            ),
            OutWord::Unsupported => Err(SyntaxError::at(QlCause::Unsupported, word.place)),
            OutWord::Unknown => Err(SyntaxError::at(QlCause::UnexpectedWord, word.place)),
        }
    }

    /// The options with this number too.
    fn with_number(self, number: NumberSpot<'_>) -> Result<OutOptions, SyntaxError<'_>>
        requires { AllDigits 10 number.number.whole.now }
        ensures { (text : List ℕ) → Keeps (with_number self (number_of number.entry))
            (λ options. (options, text)) text result }
    {
        once(self.limit.is_some(), number.place, self)?;
        let limit = number.count()?;
        Ok(OutOptions {
            limit: Some(limit),
            ..self
        })
    }
}

/// These options, where what they say wasn't said before; else `UnexpectedWord` at its place.
fn once(stood: bool, place: &[u8], options: OutOptions) -> Result<OutOptions, SyntaxError<'_>>
    ensures { (text : List ℕ) → Keeps (once stood place.now options) (λ o. (o, text)) text result }
{
    if stood {
        Err(SyntaxError::at(QlCause::UnexpectedWord, place))
    } else {
        Ok(options)
    }
}
