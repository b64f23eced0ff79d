//! Filters in parentheses.

ghost use Rattle.std.specs.Prelude.{◌≡◌, ◌++◌, ◌∷◌, [], IfOk};
ghost use Rattle.std.specs.Str.Parse.{AllDigits};
ghost use Rattle.osm_model.specs.Degrees.{Spells};
ghost use Rattle.ql_syntax.specs.internal.Following.{Follows, Keeps};
ghost use Rattle.ql_syntax.specs.internal.FilterReaders.{the_filter, the_id, the_other_id, the_ids};
ghost use Rattle.ql_syntax.specs.internal.NumberParts.{decimal_of};
ghost use Rattle.ql_syntax.specs.Rules.{gather};
ghost use Rattle.ql_syntax.specs.Selectors.{an_id, id_after, id_list, path_close, path_from, word_selector, number_selector, selector};
ghost use Rattle.ql_syntax.specs.internal.Views.{number_of, the_rest, word_of};

use crate::area::read_box;
use crate::cause::QlCause;
use crate::filter::Filter;
use crate::name::Name;
use crate::path::Path;
use crate::pick::Pick;
use crate::selector_word::{SelectorWord, selector_word};
use crate::syntax_error::SyntaxError;
use crate::token::next_token;
use crate::token_kind::TokenKind;
use crate::token_readers::{
    NumberSpot, WordSpot, name_after, next_number, number_at, pass, word_at,
};
use smallvec::SmallVec;
use std::alloc::{AllocError, Global};

/// The filter after its `(`, on objects of this kind, and what is left after its `)`.
///
/// `Unsupported` at the word of a filter that the profile leaves out, at a path that the kind lacks, at
/// a `:` after a path, and at the first number of a box on another kind than nodes; `BadBox` at the first
/// number of a box with an edge out of its range, or whose south is above its north.
pub(crate) fn read_selector(
    alloc: Global,
    pick: Pick,
    text: &[u8],
) -> Result<(Filter<'_>, &[u8]), SyntaxError<'_>>
    ensures { Follows (selector pick) the_filter text.now result }
{
    let token = next_token(text)?;
    match token.kind {
        TokenKind::Word => read_word_selector(alloc, pick, word_at(token)),
        TokenKind::Number | TokenKind::Minus => {
            read_number_selector(alloc, pick, number_at(token)?)
        }
        _ => Err(token.unexpected()),
    }
}

/// The filter that begins with this word.
fn read_word_selector<'a>(
    alloc: Global,
    pick: Pick,
    word: WordSpot<'a>,
) -> Result<(Filter<'a>, &'a [u8]), SyntaxError<'a>>
    ensures { Follows (word_selector pick (word_of word.entry)) the_filter word.entry.rest.now result }
{
    match selector_word(pick, word.word) {
        SelectorWord::Ids => read_id_list(alloc, word.rest),
        SelectorWord::Along(path) => read_path_from(path, word.rest),
        SelectorWord::Unsupported => Err(SyntaxError::at(QlCause::Unsupported, word.place)),
        SelectorWord::Unknown => Err(SyntaxError::at(QlCause::UnexpectedWord, word.place)),
    }
}

/// The filter that begins with this number: a box, or an id.
fn read_number_selector<'a>(
    alloc: Global,
    pick: Pick,
    number: NumberSpot<'a>,
) -> Result<(Filter<'a>, &'a [u8]), SyntaxError<'a>>
    requires spelled { Spells number.number.text.now (decimal_of number.number) }
    requires digits { AllDigits 10 number.number.whole.now }
    ensures { Follows (number_selector pick (number_of number.entry)) the_filter number.entry.number.rest.now result }
{
    let token = next_token(number.number.rest)?;
    match token.kind {
        TokenKind::Comma if pick.takes_boxes() => read_box(alloc, number, token.rest),
        TokenKind::Comma => Err(SyntaxError::at(QlCause::Unsupported, number.place)),
        TokenKind::CloseParenthesis => {
            let ids = ids_of(alloc, number.id()?, 1)?;
            Ok((Filter::Ids(ids), token.rest))
        }
        _ => Err(token.unexpected()),
    }
}

/// The ids after `id`, and what is left after their `)`.
fn read_id_list(alloc: Global, text: &[u8]) -> Result<(Filter<'_>, &[u8]), SyntaxError<'_>>
    ensures { Follows id_list the_filter text.now result }
{
    let rest = pass(text, TokenKind::Colon)?;
    let (first, rest) = next_id(rest)?;
    let (ids, rest) = read_ids_after(ids_of(alloc, first, room_before(rest))?, rest)?;
    Ok((Filter::Ids(ids), rest))
}

/// These ids and those that follow, and what is left after their `)`.
fn read_ids_after(
    first: SmallVec<i64, 1>,
    text: &[u8],
) -> Result<(SmallVec<i64, 1>, &[u8]), SyntaxError<'_>>
    ensures { Follows (gather id_after first.items) the_ids text.now result }
{
    let mut ids = first;
    let mut place = text;
    loop {
        let (other, rest) = read_id_after(place)?;
        place = rest;
        match other {
            Some(id) => ids = with_id(ids, id)?,
            None => return Ok((ids, place)),
        }
    }
}

/// For how many ids the first one, which this rest follows, makes room: for itself alone, which takes no
/// memory, or for some where a comma follows.
fn room_before(rest: &[u8]) -> usize {
    match rest {
        [b',', ..] => 4,
        _ => 1,
    }
}

/// The list of this id alone, with room for so many ids. For one it takes no memory.
fn ids_of(alloc: Global, id: i64, room: usize) -> Result<SmallVec<i64, 1>, AllocError>
    ensures { IfOk result (λ ids. ids.items ≡ id ∷ []) }
{
    with_id(SmallVec::with_capacity(alloc, room)?, id)
}

/// The list with this id after the others.
fn with_id(ids: SmallVec<i64, 1>, id: i64) -> Result<SmallVec<i64, 1>, AllocError>
    ensures { IfOk result (λ longer. longer.items ≡ ids.items ++ id ∷ []) }
{
    let mut longer = ids;
    longer.push(id).map_err(AllocError::from)?;
    Ok(longer)
}

/// Another id, or none, and what is left after it or the `)`.
fn read_id_after(text: &[u8]) -> Result<(Option<i64>, &[u8]), SyntaxError<'_>>
    ensures { Keeps id_after the_other_id text.now result }
{
    let token = next_token(text)?;
    match token.kind {
        TokenKind::Comma => {
            let (id, rest) = next_id(token.rest)?;
            Ok((Some(id), rest))
        }
        TokenKind::CloseParenthesis => Ok((None, token.rest)),
        _ => Err(token.unexpected()),
    }
}

/// The id that must come next.
fn next_id(text: &[u8]) -> Result<(i64, &[u8]), SyntaxError<'_>>
    ensures { Keeps an_id the_id text.now result }
{
    let number = next_number(text)?;
    let id = number.id()?;
    Ok((id, number.number.rest))
}

/// The path whose name has been read, and what is left after its `)`.
fn read_path_from(path: Path, text: &[u8]) -> Result<(Filter<'_>, &[u8]), SyntaxError<'_>>
    ensures { Keeps (path_from path) the_filter text.now result }
{
    let token = next_token(text)?;
    match token.kind {
        TokenKind::Dot => {
            let (name, rest) = name_after(token)?;
            let rest = pass_path_close(rest)?;
            Ok((Filter::Via(path, name), rest))
        }
        _ => {
            let rest = pass_path_close(token.place)?;
            Ok((Filter::Via(path, Name::default_set()), rest))
        }
    }
}

/// What is left after the `)` of a path.
fn pass_path_close(text: &[u8]) -> Result<&[u8], SyntaxError<'_>>
    ensures { Keeps path_close the_rest text.now result }
{
    let token = next_token(text)?;
    match token.kind {
        TokenKind::CloseParenthesis => Ok(token.rest),
        TokenKind::Colon => Err(SyntaxError::at(QlCause::Unsupported, token.place)),
        _ => Err(token.unexpected()),
    }
}
