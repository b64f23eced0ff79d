//! Moments, as timestamps spell them.

ghost use Rattle.std.specs.Prelude.{◌≡◌, ℕ, List, [], ◌∷◌, Option, Some, MatchOption, IsTrue, ◌↔◌};
ghost use Rattle.osm_model.specs.Letters.{zone_mark};
ghost use Rattle.osm_model.specs.Moments.{Moment};
ghost use Rattle.opl_codec.specs.Values.{SpellsStamp};
ghost use Rattle.opl_codec.specs.internal.Stamps.{BeginsWithTwo, BeginsWithPart};

use osm_model::Stamp;

/// The moment `YYYY-MM-DDThh:mm:ssZ` in the ranges of [`Stamp`], or `Some(None)` where there is no
/// text.
pub(crate) fn read_stamp(text: &[u8]) -> Option<Option<Stamp>>
    ensures { MatchOption result ((s : Option Moment) → SpellsStamp text.now s → ⊥)
        (λ s. SpellsStamp text.now s) }
{
    if text.is_empty() {
        return Some(None);
    }
    Some(Some(read_moment(text)?))
}

/// The moment that is spelled so.
fn read_moment(text: &[u8]) -> Option<Stamp>
    ensures { MatchOption result ((m : Moment) → SpellsStamp text.now (Some m) → ⊥)
        (λ m. SpellsStamp text.now (Some m)) }
{
    let (century, after_century) = read_two(text)?;
    let (year, after_year) = read_two(after_century)?;
    let (month, after_month) = read_part(b'-', after_year)?;
    let (day, after_day) = read_part(b'-', after_month)?;
    let (hour, after_hour) = read_part(b'T', after_day)?;
    let (minute, after_minute) = read_part(b':', after_hour)?;
    let (second, end) = read_part(b':', after_minute)?;
    if !is_zone(end) {
        return None;
    }
    let year = u16::from(century) * 100 + u16::from(year);
    Stamp::new(year, month, day, hour, minute, second)
}

/// Whether the text is the mark of UTC.
fn is_zone(text: &[u8]) -> bool
    ensures { IsTrue result ↔ (text.now ≡ zone_mark ∷ []) }
{
    matches!(text, [b'Z'])
}

/// The number of the two digits after the separator with which a text begins, and the text after them.
fn read_part(separator: u8, text: &[u8]) -> Option<(u8, &[u8])>
    ensures { MatchOption result ((n : ℕ) (rest : List ℕ) → BeginsWithPart separator text.now n rest
        → ⊥) (λ part. BeginsWithPart separator text.now part.0 part.1.now) }
{
    let [first, digits @ ..] = text else {
        return None;
    };
    if *first != separator {
        return None;
    }
    read_two(digits)
}

/// The number of the two digits with which a text begins, and the text after them.
fn read_two(text: &[u8]) -> Option<(u8, &[u8])>
    ensures { MatchOption result ((n : ℕ) (rest : List ℕ) → BeginsWithTwo text.now n rest → ⊥)
        (λ two. BeginsWithTwo text.now two.0 two.1.now) }
{
    let [tens, ones, rest @ ..] = text else {
        return None;
    };
    if !tens.is_ascii_digit() || !ones.is_ascii_digit() {
        return None;
    }
    Some(((*tens - b'0') * 10 + (*ones - b'0'), rest))
}
