//! What is known of the last change, as members of a JSON object.

ghost use Rattle.std.specs.Prelude.{◌≡◌, ◌++◌, codes, length, pos, take, OnErr, OnOk};
ghost use Rattle.osm_model.specs.CanonicalLine.{moment};
ghost use Rattle.osm_forms.specs.JsonText.{json_author, json_change, json_meta, json_moment, json_number, json_user};

use crate::json_string::append_json_string;
use crate::number::{append_labelled_number, append_words};
use opl_codec::moment_text;
use osm_model::{Meta, Stamp, Text};
use std::alloc::AllocError;

/// Appends what is known, each after a comma.
pub(crate) fn append_json_meta(meta: &Meta, out: &mut Vec<u8>) -> Result<(), AllocError>
    ensures ok { OnOk result (out.new.items ≡ out.old.items ++ json_meta meta.now) }
    ensures err { OnErr result (take (length out.old.items) out.new.items ≡ out.old.items) }
{
    append_json_change(meta, out)?;
    append_json_author(meta, out)
}

/// The moment, the version and the changeset.
fn append_json_change(meta: &Meta, out: &mut Vec<u8>) -> Result<(), AllocError>
    ensures ok { OnOk result (out.new.items ≡ out.old.items ++ json_change meta.now) }
    ensures err { OnErr result (take (length out.old.items) out.new.items ≡ out.old.items) }
{
    append_json_moment(meta.stamp, out)?;
    append_json_version(meta.version, out)?;
    append_json_number(",\"changeset\":", meta.changeset, out)
}

fn append_json_version(version: u32, out: &mut Vec<u8>) -> Result<(), AllocError>
    ensures ok { OnOk result (out.new.items ≡ out.old.items
        ++ json_number (codes ",\"version\":") (pos version)) }
    ensures err { OnErr result (take (length out.old.items) out.new.items ≡ out.old.items) }
{
    append_json_number(",\"version\":", i64::from(version), out)
}

/// Who made the change.
fn append_json_author(meta: &Meta, out: &mut Vec<u8>) -> Result<(), AllocError>
    ensures ok { OnOk result (out.new.items ≡ out.old.items ++ json_author meta.now) }
    ensures err { OnErr result (take (length out.old.items) out.new.items ≡ out.old.items) }
{
    append_json_user(&meta.user, out)?;
    append_json_number(",\"uid\":", meta.uid, out)
}

/// Appends a number after its name, unless it is 0.
fn append_json_number(name: &str, number: i64, out: &mut Vec<u8>) -> Result<(), AllocError>
    ensures ok { OnOk result (out.new.items ≡ out.old.items ++ json_number name.now number) }
    ensures err { OnErr result (take (length out.old.items) out.new.items ≡ out.old.items) }
{
    if number == 0 {
        return Ok(());
    }
    append_labelled_number(name, number, out)
}

fn append_json_moment(stamp: Option<Stamp>, out: &mut Vec<u8>) -> Result<(), AllocError>
    ensures ok { OnOk result (out.new.items ≡ out.old.items ++ json_moment stamp) }
    ensures err { OnErr result (take (length out.old.items) out.new.items ≡ out.old.items) }
{
    match stamp {
        None => Ok(()),
        Some(stamp) => {
            append_words(",\"timestamp\":\"", out)?;
            append_moment(stamp, out)?;
            append_words("\"", out)
        }
    }
}

/// Appends a moment.
pub(crate) fn append_moment(stamp: Stamp, out: &mut Vec<u8>) -> Result<(), AllocError>
    ensures ok { OnOk result (out.new.items ≡ out.old.items ++ moment (Some stamp)) }
    ensures err { OnErr result (take (length out.old.items) out.new.items ≡ out.old.items) }
{
    out.extend_from_slice(&moment_text(stamp))
}

fn append_json_user(user: &Text, out: &mut Vec<u8>) -> Result<(), AllocError>
    ensures ok { OnOk result (out.new.items ≡ out.old.items ++ json_user user.now) }
    ensures err { OnErr result (take (length out.old.items) out.new.items ≡ out.old.items) }
{
    if user.len() == 0 {
        return Ok(());
    }
    append_words(",\"user\":", out)?;
    append_json_string(user.as_bytes(), out)
}
