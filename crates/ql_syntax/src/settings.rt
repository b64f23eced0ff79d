//! Settings. What they say is the format that they ask for; all else that they may say has no effect.

ghost use Rattle.std.specs.Prelude.{◌<◌, IfOk, None, length};
ghost use Rattle.ql_syntax.specs.Formats.{HasFormat, IsAskedAtFront};
ghost use Rattle.ql_syntax.specs.Queries.{Reads};
ghost use Rattle.ql_syntax.specs.Rules.{repeat};
ghost use Rattle.ql_syntax.specs.Settings.{settings, setting_round, setting, setting_value, format, count};
ghost use Rattle.ql_syntax.specs.Statements.{Statements};
ghost use Rattle.ql_syntax.specs.internal.Following.{Keeps};
ghost use Rattle.ql_syntax.specs.internal.Views.{the_format, the_setting_round, word_of};

use crate::cause::QlCause;
use crate::format::Format;
use crate::round::Round;
use crate::setting_word::{FormatWord, SettingWord, format_of, setting_of};
use crate::syntax_error::SyntaxError;
use crate::token::next_token;
use crate::token_kind::TokenKind;
use crate::token_readers::{WordSpot, next_number, next_word, pass};

/// The format that the settings of a query ask for, or `None` where they ask for none: the last one, where there are
/// several. `parse` reads the same settings, and drops it.
///
/// Only the settings are read, whatever follows them, up to their `;`; for settings that `parse` refuses it is `None`. It
/// takes no memory.
///
/// Source: the Overpass QL page of the OpenStreetMap wiki, "Settings"; that the last format counts is this project's.
pub fn asked_format(text: &[u8]) -> Option<Format>
    // The format of a query is what its settings ask for.
    ensures asked { (statements : Statements) → Reads text.now statements → HasFormat text.now result }
    // And so it is told of a text that isn't a query, as far as its settings can be read.
    ensures front { IsAskedAtFront text.now result }
{
    match read_settings(text) {
        Ok((format, _)) => format,
        Err(_) => None,
    }
}

/// The format that the settings before the first statement ask for, and what is left after them, where there are some.
///
/// `Unsupported` at the word of a setting or of a format that the profile leaves out.
pub(crate) fn read_settings(text: &[u8]) -> Result<(Option<Format>, &[u8]), SyntaxError<'_>>
    ensures { Keeps settings the_format text.now result }
{
    let first = next_token(text)?;
    match first.kind {
        TokenKind::OpenBracket => read_rounds(first.rest),
        _ => Ok((None, first.place)),
    }
}

/// The last format that the settings after a first `[` ask for, and what is left after them and their `;`.
fn read_rounds(text: &[u8]) -> Result<(Option<Format>, &[u8]), SyntaxError<'_>>
    ensures { Keeps (repeat setting_round None) the_format text.now result }
{
    let mut asked = None;
    let mut place = text;
    loop {
        let (round, last, rest) = read_round(asked, place)?;
        match round {
            Round::More => {
                asked = last;
                place = rest;
            }
            Round::Done => return Ok((last, rest)),
        }
    }
}

/// Whether another setting follows, the last format up to this one, and what is left after this one and the `[` of the next,
/// or the `;`.
fn read_round<'a>(
    asked: Option<Format>,
    text: &'a [u8],
) -> Result<(Round, Option<Format>, &'a [u8]), SyntaxError<'a>>
    ensures follows { Keeps (setting_round asked) the_setting_round text.now result }
    ensures shorter { IfOk result (λ found. length found.2.now < length text.now) }
{
    let (found, after) = read_setting(text)?;
    let token = next_token(after)?;
    match token.kind {
        TokenKind::OpenBracket => Ok((Round::More, found.or(asked), token.rest)),
        TokenKind::Semicolon => Ok((Round::Done, found.or(asked), token.rest)),
        _ => Err(token.unexpected()),
    }
}

/// The format that one setting asks for, and what is left after its `]`. Its `[` has been read.
fn read_setting(text: &[u8]) -> Result<(Option<Format>, &[u8]), SyntaxError<'_>>
    ensures { Keeps setting the_format text.now result }
{
    let name = next_word(text)?;
    let (asked, rest) = read_value(name)?;
    let after = pass(rest, TokenKind::CloseBracket)?;
    Ok((asked, after))
}

/// The format that the setting with this name asks for, and what is left after its value.
fn read_value(name: WordSpot<'_>) -> Result<(Option<Format>, &[u8]), SyntaxError<'_>>
    ensures { Keeps (setting_value (word_of name.entry)) the_format name.entry.rest.now result }
{
    match setting_of(name.word) {
        SettingWord::Format => read_format(pass(name.rest, TokenKind::Colon)?),
        SettingWord::Count => read_count(pass(name.rest, TokenKind::Colon)?),
        SettingWord::Unsupported => Err(SyntaxError::at(QlCause::Unsupported, name.place)),
        SettingWord::Unknown => Err(SyntaxError::at(QlCause::UnexpectedWord, name.place)),
    }
}

/// The format with the name that comes next, and what is left after it.
fn read_format(text: &[u8]) -> Result<(Option<Format>, &[u8]), SyntaxError<'_>>
    ensures { Keeps format the_format text.now result }
{
    let found = next_word(text)?;
    match format_of(found.word) {
        FormatWord::Known(format) => Ok((Some(format), found.rest)),
        FormatWord::Unsupported => Err(SyntaxError::at(QlCause::Unsupported, found.place)),
        FormatWord::Unknown => Err(SyntaxError::at(QlCause::UnexpectedWord, found.place)),
    }
}

/// No format, and what is left after a number.
fn read_count(text: &[u8]) -> Result<(Option<Format>, &[u8]), SyntaxError<'_>>
    ensures { Keeps count the_format text.now result }
{
    let spot = next_number(text)?;
    spot.count()?;
    Ok((None, spot.number.rest))
}
