//! What a filter asks of an object alone.

ghost use Rattle.std.specs.Prelude.{◌↔◌, IsTrue};
ghost use Rattle.osm_model.specs.Tagged.{HasKeyOf, HasTag};
ghost use Rattle.ql_syntax.specs.StatementViews.{filter_of};
ghost use Rattle.ql_meaning.specs.ObjectTests.{IsNodeInBox, PassesAlone};

use osm_model::{Body, BoxArea, Object};
use ql_syntax::Filter;

/// Whether a filter keeps an object, as far as the object alone tells: filters by a set, by ids and by a path look at
/// more, and keep it here.
pub(crate) fn passes_alone(filter: &Filter<'_>, object: &Object) -> bool
    ensures { IsTrue result ↔ PassesAlone (filter_of filter.now) object.now }
{
    match filter {
        Filter::HasKey(key) => has_key(object, key.as_bytes()),
        Filter::KeyIs(key, value) => has_tag(object, key.as_bytes(), value.as_bytes()),
        Filter::LacksKey(key) => !has_key(object, key.as_bytes()),
        Filter::KeyIsNot(key, value) => !has_tag(object, key.as_bytes(), value.as_bytes()),
        Filter::Within(area) => is_within(object, area),
        Filter::InSet(_) => true,
        Filter::Ids(_) => true,
        Filter::Via(_, _) => true,
    }
}

fn is_within(object: &Object, area: &BoxArea<'_>) -> bool
    ensures { IsTrue result ↔ IsNodeInBox area.now object.now }
{
    match object.body() {
        Body::Node(place) => area.holds(*place),
        _ => false,
    }
}

fn has_key(object: &Object, key: &[u8]) -> bool
    ensures { IsTrue result ↔ HasKeyOf object.now key.now }
{
    object.tags().iter().any(|tag| tag.key.as_bytes() == key)
}

fn has_tag(object: &Object, key: &[u8], value: &[u8]) -> bool
    ensures { IsTrue result ↔ HasTag object.now key.now value.now }
{
    object.tags().iter().any(|tag| tag.key.as_bytes() == key && tag.value.as_bytes() == value)
}
