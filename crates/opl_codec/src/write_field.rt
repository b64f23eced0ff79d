//! The fields of a line.

ghost use Rattle.std.specs.Prelude.{◌≡◌, ◌++◌, [], ◌∷◌, length, take, flat_map, OnOk, OnErr};
ghost use Rattle.std.specs.Fmt.{decimal, signed_decimal};
ghost use Rattle.osm_model.specs.Bytes.{comma, space};
ghost use Rattle.osm_model.specs.CanonicalLine.{name_field, meta_fields, tags_field, tag_text, moment, escaped};
ghost use Rattle.osm_model.specs.Letters.{changeset_letter, stamp_letter, uid_letter, user_letter, version_letter, visible_letter, visible_mark};

use crate::write_moment::moment_text;
use crate::write_reference::{append_number, append_reference};
use crate::write_text::append_text;
use osm_model::{Meta, Object, Stamp, Tag};
use std::alloc::AllocError;

/// Appends the letter of the object's kind and its id.
pub(crate) fn append_name(object: &Object, out: &mut Vec<u8>) -> Result<(), AllocError>
    ensures ok { OnOk result (out.new.items ≡ out.old.items ++ name_field object.now) }
    ensures err { OnErr result (take (length out.old.items) out.new.items ≡ out.old.items) }
{
    append_reference(object.reference(), out)
}

/// Appends a space and the fields of the metadata, a space between two.
pub(crate) fn append_meta(meta: &Meta, out: &mut Vec<u8>) -> Result<(), AllocError>
    ensures ok { OnOk result (out.new.items ≡ out.old.items
        ++ flat_map (λ f. space ∷ f) (meta_fields meta.now)) }
    ensures err { OnErr result (take (length out.old.items) out.new.items ≡ out.old.items) }
{
    append_change(meta, out)?;
    append_author(meta, out)
}

/// The version, that it is visible, the changeset and the moment.
fn append_change(meta: &Meta, out: &mut Vec<u8>) -> Result<(), AllocError>
    ensures ok { OnOk result (out.new.items ≡ out.old.items
        ++ ((space ∷ version_letter ∷ decimal meta.now.version)
        ++ ((space ∷ visible_letter ∷ visible_mark ∷ [])
        ++ ((space ∷ changeset_letter ∷ signed_decimal meta.now.changeset)
        ++ (space ∷ stamp_letter ∷ moment meta.now.stamp))))) }
    ensures err { OnErr result (take (length out.old.items) out.new.items ≡ out.old.items) }
{
    append_labelled_number(b" v", i64::from(meta.version), out)?;
    append_labelled_number(b" dV c", meta.changeset, out)?;
    append_moment(meta.stamp, out)
}

/// Who made the change.
fn append_author(meta: &Meta, out: &mut Vec<u8>) -> Result<(), AllocError>
    ensures ok { OnOk result (out.new.items ≡ out.old.items
        ++ ((space ∷ uid_letter ∷ signed_decimal meta.now.uid)
        ++ (space ∷ user_letter ∷ escaped meta.now.user))) }
    ensures err { OnErr result (take (length out.old.items) out.new.items ≡ out.old.items) }
{
    append_labelled_number(b" i", meta.uid, out)?;
    out.extend_from_slice(b" u")?;
    append_text(&meta.user, out)
}

/// Appends a number after these letters.
fn append_labelled_number(label: &[u8], number: i64, out: &mut Vec<u8>) -> Result<(), AllocError>
    ensures ok { OnOk result (out.new.items ≡ out.old.items
        ++ (label.now ++ signed_decimal number)) }
    ensures err { OnErr result (take (length out.old.items) out.new.items ≡ out.old.items) }
{
    out.extend_from_slice(label)?;
    append_number(number, out)
}

/// Appends a space and the field of these tags.
pub(crate) fn append_tags(tags: &[Tag], out: &mut Vec<u8>) -> Result<(), AllocError>
    ensures ok { OnOk result (out.new.items ≡ out.old.items ++ space ∷ tags_field tags.now) }
    ensures err { OnErr result (take (length out.old.items) out.new.items ≡ out.old.items) }
{
    out.extend_from_slice(b" T")?;
    let Some((first, others)) = tags.split_first() else {
        return Ok(());
    };
    append_tag(first, out)?;
    append_other_tags(others, out)
}

/// Appends each of these tags after a comma.
fn append_other_tags(tags: &[Tag], out: &mut Vec<u8>) -> Result<(), AllocError>
    ensures ok { OnOk result (out.new.items ≡ out.old.items
        ++ flat_map (λ x. comma ∷ tag_text x) tags.now) }
    ensures err { OnErr result (take (length out.old.items) out.new.items ≡ out.old.items) }
{
    for tag in tags {
        append_other_tag(tag, out)?;
    }
    Ok(())
}

/// Appends a comma and a tag.
fn append_other_tag(tag: &Tag, out: &mut Vec<u8>) -> Result<(), AllocError>
    ensures ok { OnOk result (out.new.items ≡ out.old.items ++ comma ∷ tag_text tag.now) }
    ensures err { OnErr result (take (length out.old.items) out.new.items ≡ out.old.items) }
{
    out.push(b',')?;
    append_tag(tag, out)
}

fn append_tag(tag: &Tag, out: &mut Vec<u8>) -> Result<(), AllocError>
    ensures ok { OnOk result (out.new.items ≡ out.old.items ++ tag_text tag.now) }
    ensures err { OnErr result (take (length out.old.items) out.new.items ≡ out.old.items) }
{
    append_text(&tag.key, out)?;
    out.push(b'=')?;
    append_text(&tag.value, out)
}

/// Appends the field of a moment.
#[tactic(auto, unfolding(osm_model::specs::CanonicalLine::moment))]
fn append_moment(stamp: Option<Stamp>, out: &mut Vec<u8>) -> Result<(), AllocError>
    ensures ok { OnOk result (out.new.items ≡ out.old.items ++ space ∷ stamp_letter ∷ moment stamp) }
    ensures err { OnErr result (take (length out.old.items) out.new.items ≡ out.old.items) }
{
    out.extend_from_slice(b" t")?;
    match stamp {
        None => Ok(()),
        Some(stamp) => out.extend_from_slice(&moment_text(stamp)),
    }
}
