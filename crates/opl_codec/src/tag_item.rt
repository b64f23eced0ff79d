//! Tags, as fields spell them.

ghost use Rattle.std.specs.Prelude.{◌≡◌, ◌++◌, ◌∷◌, List, All, IfOk, IfErr, IsTrue, ◌↔◌};
ghost use Rattle.std.specs.List.Sorted.{IsPermutation};
ghost use Rattle.osm_model.specs.Bytes.{equals_sign};
ghost use Rattle.osm_model.specs.Limits.{IsShort};
ghost use Rattle.osm_model.specs.declared.tag.Tag.{Tag};
ghost use Rattle.opl_codec.specs.Texts.{IsText};
ghost use Rattle.opl_codec.specs.Values.{SpellsTags, TagsFit};
ghost use Rattle.opl_codec.specs.ValueFaults.{TagFault, TagsFault};

use crate::cut_text::is_at;
use crate::key_order::with_distinct_keys;
use crate::list_item::{ListItem, read_list, shifted_by};
use crate::make_text::make_text;
use crate::text_len::{check_text, text_len};
use crate::value_fault::ValueFault;
use osm_model::{TEXT_LIMIT, Tag, TagList};
use std::alloc::Global;

/// The tags of a text, in an order of their own.
///
/// Refused with `Limit` where they are more than [`osm_model::LIST_LIMIT`], a key or a value has more
/// than [`TEXT_LIMIT`] bytes, or two have one key.
pub(crate) fn read_tags(alloc: Global, text: &str) -> Result<TagList, ValueFault>
    ensures read { IfOk result (λ tags. (written : List Tag) × SpellsTags text.now written
        × IsPermutation written tags × TagsFit tags) }
    ensures refused { IfErr result (λ fault. TagsFault text.now fault) }
{
    let tags: Vec<Tag> = read_list(alloc, text)?;
    if !are_short(&tags) {
        return Err(ValueFault::Limit);
    }
    match with_distinct_keys(tags) {
        Some(tags) => Ok(TagList::new(tags)),
        None => Err(ValueFault::Limit),
    }
}

/// Whether no text is over its limit.
fn are_short(tags: &[Tag]) -> bool
    ensures { IsTrue result ↔ All (λ tag. IsShort tag.key × IsShort tag.value) tags.now }
{
    tags.iter().all(|tag| tag.key.len() <= TEXT_LIMIT && tag.value.len() <= TEXT_LIMIT)
}

impl ListItem for Tag {
    ghost use Rattle.opl_codec.specs.Values.{SpellsTag};
    ghost use Rattle.opl_codec.specs.ValueFaults.{TagFault};
    ghost use Rattle.opl_codec.specs.internal.ItemPlaces.{tag_within};

    ghost spells = { SpellsTag };

    ghost bad = { TagFault };

    ghost unlimited = { λ _ limit. limit };

    ghost within = { tag_within };

    fn read(alloc: Global, spelled: &str) -> Result<Tag, ValueFault> {
        let (key, value) = cut_tag(spelled)?;
        let key = make_text(alloc, key)?;
        let value = make_text(alloc, value)?;
        Ok(Tag { key, value })
    }
}

/// The key and the value of a tag, as they are spelled.
fn cut_tag(spelled: &str) -> Result<(&str, &str), ValueFault>
    ensures parts { IfOk result (λ parts. spelled.now ≡ parts.0.now ++ equals_sign ∷ parts.1.now) }
    ensures texts { IfOk result (λ parts. IsText parts.0.now × IsText parts.1.now) }
    ensures refused { IfErr result (λ fault. TagFault spelled.now fault) }
{
    let (key, value) = cut_key(spelled)?;
    match check_text(value.as_bytes()) {
        Ok(()) => Ok((key, value)),
        Err(fault) => Err(shifted_by(fault, key.len() + 1)),
    }
}

/// The key of a tag, as it is spelled, and the text after its `=`.
fn cut_key(spelled: &str) -> Result<(&str, &str), ValueFault>
    ensures parts { IfOk result (λ parts. spelled.now ≡ parts.0.now ++ equals_sign ∷ parts.1.now) }
    ensures key { IfOk result (λ parts. IsText parts.0.now) }
    ensures refused { IfErr result (λ fault. TagFault spelled.now fault) }
{
    let key_len = match text_len(spelled.as_bytes()) {
        Ok(len) => len,
        Err(at) => return Err(ValueFault::Escape(at)),
    };
    if !is_at(spelled.as_bytes(), key_len, b'=') {
        return Err(ValueFault::Form);
    }
    Ok((&spelled[..key_len], &spelled[key_len + 1..]))
}
