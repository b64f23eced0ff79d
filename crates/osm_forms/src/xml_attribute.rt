//! What is known of the last change, and where a node lies, as attributes.

ghost use Rattle.std.specs.Prelude.{◌≡◌, ◌++◌, codes, length, pos, take, OnErr, OnOk};
ghost use Rattle.osm_forms.specs.XmlText.{xml_author, xml_change, xml_degrees, xml_meta, xml_moment, xml_number, xml_place, xml_user};

use crate::json_meta::append_moment;
use crate::json_object::append_labelled_degrees;
use crate::number::{append_labelled_number, append_words};
use crate::xml_text::append_xml_text;
use osm_model::{Coord, Meta, Stamp, Text};
use std::alloc::AllocError;

/// Appends what is known, each after a space.
pub(crate) fn append_xml_meta(meta: &Meta, out: &mut Vec<u8>) -> Result<(), AllocError>
    ensures ok { OnOk result (out.new.items ≡ out.old.items ++ xml_meta meta.now) }
    ensures err { OnErr result (take (length out.old.items) out.new.items ≡ out.old.items) }
{
    append_xml_change(meta, out)?;
    append_xml_author(meta, out)
}

fn append_xml_change(meta: &Meta, out: &mut Vec<u8>) -> Result<(), AllocError>
    ensures ok { OnOk result (out.new.items ≡ out.old.items ++ xml_change meta.now) }
    ensures err { OnErr result (take (length out.old.items) out.new.items ≡ out.old.items) }
{
    append_xml_version(meta.version, out)?;
    append_xml_moment(meta.stamp, out)?;
    append_xml_number(" changeset=\"", meta.changeset, out)
}

fn append_xml_version(version: u32, out: &mut Vec<u8>) -> Result<(), AllocError>
    ensures ok { OnOk result (out.new.items ≡ out.old.items
        ++ xml_number (codes " version=\"") (pos version)) }
    ensures err { OnErr result (take (length out.old.items) out.new.items ≡ out.old.items) }
{
    append_xml_number(" version=\"", i64::from(version), out)
}

/// Who made the change.
fn append_xml_author(meta: &Meta, out: &mut Vec<u8>) -> Result<(), AllocError>
    ensures ok { OnOk result (out.new.items ≡ out.old.items ++ xml_author meta.now) }
    ensures err { OnErr result (take (length out.old.items) out.new.items ≡ out.old.items) }
{
    append_xml_number(" uid=\"", meta.uid, out)?;
    append_xml_user(&meta.user, out)
}

/// Appends a number after its name, unless it is 0.
fn append_xml_number(name: &str, number: i64, out: &mut Vec<u8>) -> Result<(), AllocError>
    ensures ok { OnOk result (out.new.items ≡ out.old.items ++ xml_number name.now number) }
    ensures err { OnErr result (take (length out.old.items) out.new.items ≡ out.old.items) }
{
    if number == 0 {
        return Ok(());
    }
    append_labelled_number(name, number, out)?;
    append_words("\"", out)
}

fn append_xml_moment(stamp: Option<Stamp>, out: &mut Vec<u8>) -> Result<(), AllocError>
    ensures ok { OnOk result (out.new.items ≡ out.old.items ++ xml_moment stamp) }
    ensures err { OnErr result (take (length out.old.items) out.new.items ≡ out.old.items) }
{
    match stamp {
        None => Ok(()),
        Some(stamp) => {
            append_words(" timestamp=\"", out)?;
            append_moment(stamp, out)?;
            append_words("\"", out)
        }
    }
}

fn append_xml_user(user: &Text, out: &mut Vec<u8>) -> Result<(), AllocError>
    ensures ok { OnOk result (out.new.items ≡ out.old.items ++ xml_user user.now) }
    ensures err { OnErr result (take (length out.old.items) out.new.items ≡ out.old.items) }
{
    if user.len() == 0 {
        return Ok(());
    }
    append_words(" user=\"", out)?;
    append_xml_text(user, out)?;
    append_words("\"", out)
}

/// Appends where a node lies.
pub(crate) fn append_xml_place(place: Coord, out: &mut Vec<u8>) -> Result<(), AllocError>
    ensures ok { OnOk result (out.new.items ≡ out.old.items ++ xml_place place) }
    ensures err { OnErr result (take (length out.old.items) out.new.items ≡ out.old.items) }
{
    append_xml_degrees(" lat=\"", place.lat(), out)?;
    append_xml_degrees(" lon=\"", place.lon(), out)
}

fn append_xml_degrees(name: &str, value: i32, out: &mut Vec<u8>) -> Result<(), AllocError>
    ensures ok { OnOk result (out.new.items ≡ out.old.items ++ xml_degrees name.now value) }
    ensures err { OnErr result (take (length out.old.items) out.new.items ≡ out.old.items) }
{
    append_labelled_degrees(name, value, out)?;
    append_words("\"", out)
}
