//! Whether filters are the same, and numbers that different ones rarely share.

ghost use Rattle.std.specs.Prelude.{◌≡◌, IsTrue};
ghost use Rattle.ql_syntax.specs.StatementViews.{filter_of, filters_of};

use crate::memo::mixed;
use osm_model::BoxArea;
use ql_syntax::Filter;

/// Whether two lists of filters are the same, in their order. Linear in what is written in them.
pub(crate) fn are_same_filters(first: &[Filter<'_>], second: &[Filter<'_>]) -> bool
    ensures { IsTrue result → filters_of first.now ≡ filters_of second.now }
{
    if first.len() != second.len() {
        return false;
    }
    for (one, other) in first.iter().zip(second) {
        if !is_same_filter(one, other) {
            return false;
        }
    }
    true
}

/// Whether two filters are the same.
fn is_same_filter(first: &Filter<'_>, second: &Filter<'_>) -> bool
    ensures { IsTrue result → filter_of first.now ≡ filter_of second.now }
{
    match (first, second) {
        (Filter::InSet(one), Filter::InSet(other)) => one.as_bytes() == other.as_bytes(),
        (Filter::HasKey(one), Filter::HasKey(other)) => one.as_bytes() == other.as_bytes(),
        (Filter::KeyIs(key, value), Filter::KeyIs(other, also)) => {
            key.as_bytes() == other.as_bytes() && value.as_bytes() == also.as_bytes()
        }
        (Filter::LacksKey(one), Filter::LacksKey(other)) => one.as_bytes() == other.as_bytes(),
        (Filter::KeyIsNot(key, value), Filter::KeyIsNot(other, also)) => {
            key.as_bytes() == other.as_bytes() && value.as_bytes() == also.as_bytes()
        }
        (Filter::Ids(ids), Filter::Ids(others)) => ids.as_slice() == others.as_slice(),
        (Filter::Within(one), Filter::Within(other)) => one.is_same(other),
        (Filter::Via(path, name), Filter::Via(other, also)) => {
            *path == *other && name.as_bytes() == also.as_bytes()
        }
        _ => false,
    }
}

/// The number with filters mixed in.
pub(crate) fn mixed_filters(number: u64, filters: &[Filter<'_>]) -> u64 {
    let mut number = number;
    for filter in filters {
        number = mixed_filter(number, filter);
    }
    number
}

/// The number with a filter mixed in.
fn mixed_filter(number: u64, filter: &Filter<'_>) -> u64 {
    match filter {
        Filter::InSet(name) => mixed_text(mixed(number, 1), name.as_bytes()),
        Filter::HasKey(key) => mixed_text(mixed(number, 2), key.as_bytes()),
        Filter::KeyIs(key, value) => mixed_tag(mixed(number, 3), key.as_bytes(), value.as_bytes()),
        Filter::LacksKey(key) => mixed_text(mixed(number, 4), key.as_bytes()),
        Filter::KeyIsNot(key, value) => {
            mixed_tag(mixed(number, 5), key.as_bytes(), value.as_bytes())
        }
        Filter::Ids(ids) => mixed_ids(mixed(number, 6), ids.as_slice()),
        Filter::Within(area) => mixed_box(mixed(number, 7), area),
        Filter::Via(path, name) => {
            mixed_text(mixed(mixed(number, 8), *path as u64), name.as_bytes())
        }
    }
}

/// The number with a key and a value mixed in.
fn mixed_tag(number: u64, key: &[u8], value: &[u8]) -> u64 {
    mixed_text(mixed(mixed_text(number, key), 1), value)
}

/// The number with the bytes of a text mixed in.
fn mixed_text(number: u64, text: &[u8]) -> u64 {
    let mut number = number;
    for byte in text {
        number = mixed(number, u64::from(*byte));
    }
    number
}

/// The number with ids mixed in.
fn mixed_ids(number: u64, ids: &[i64]) -> u64 {
    let mut number = number;
    for id in ids {
        number = mixed(number, id.cast_unsigned());
    }
    number
}

/// The number with the edges of a box mixed in, to whole units.
fn mixed_box(number: u64, area: &BoxArea<'_>) -> u64 {
    let south = mixed(
        number,
        u64::from(area.south().floor_units().cast_unsigned()),
    );
    let west = mixed(south, u64::from(area.west().floor_units().cast_unsigned()));
    let north = mixed(west, u64::from(area.north().floor_units().cast_unsigned()));
    mixed(north, u64::from(area.east().floor_units().cast_unsigned()))
}
