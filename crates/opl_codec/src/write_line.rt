//! Objects to lines.

ghost use Rattle.std.specs.Prelude.{◌≡◌, ◌++◌, ◌∷◌, flat_map, length, take, OnOk, OnErr};
ghost use Rattle.std.specs.List.{join_with_byte};
ghost use Rattle.osm_model.specs.Bytes.{space};
ghost use Rattle.osm_model.specs.CanonicalLine.{body_fields, tags_field};
ghost use Rattle.opl_codec.specs.Text.{fields_of, text_of};

use crate::write_body::append_body;
use crate::write_field::{append_meta, append_name, append_tags};
use osm_model::{Object, OutMode};
use std::alloc::AllocError;

/// Appends the line of an object in a mode to `out`, with its LF.
///
/// The line holds the fields that the mode keeps, a space between two: the letter of the kind and the
/// id; `v` version, `dV`, `c` changeset, `t` timestamp, `i` user id, `u` user; `T` tags by rising key;
/// `x` and `y` in degrees, or `N` and the nodes of a way, or `M` and the members of a relation. In mode `Meta` it is the object's one canonical line, at most 2^24 bytes
/// and its LF. Only `out` takes memory, as it grows.
///
/// Refused only when out of memory; `out` then has its old bytes.
///
/// Source: fields and letters of Osmium's OPL manual; which fields a mode keeps, their order and their
/// one spelling are this project's.
pub fn write_object(object: &Object, mode: OutMode, out: &mut Vec<u8>) -> Result<(), AllocError>
    ensures written { OnOk result (out.new.items ≡ out.old.items ++ text_of object.now mode) }
    ensures unchanged { OnErr result (out.new.items ≡ out.old.items) }
{
    let start = out.len();
    let appended = append_line(object, mode, out);
    if appended.is_err() {
        out.truncate(start);
    }
    appended
}

#[tactic(auto, unfolding(crate::specs::Text::text_of))]
fn append_line(object: &Object, mode: OutMode, out: &mut Vec<u8>) -> Result<(), AllocError>
    ensures ok { OnOk result (out.new.items ≡ out.old.items ++ text_of object.now mode) }
    ensures err { OnErr result (take (length out.old.items) out.new.items ≡ out.old.items) }
{
    append_fields(object, mode, out)?;
    out.push(b'\n')?;
    Ok(())
}

fn append_fields(object: &Object, mode: OutMode, out: &mut Vec<u8>) -> Result<(), AllocError>
    ensures ok { OnOk result (out.new.items ≡ out.old.items
        ++ join_with_byte 32 (fields_of object.now mode)) }
    ensures err { OnErr result (take (length out.old.items) out.new.items ≡ out.old.items) }
{
    append_name(object, out)?;
    match mode {
        OutMode::Ids => Ok(()),
        OutMode::Tags => append_tags(object.tags(), out),
        OutMode::Skel => append_body(object.body(), out),
        OutMode::Body => append_said(object, out),
        OutMode::Meta => {
            append_meta(object.meta(), out)?;
            append_said(object, out)
        }
    }
}

/// Appends a space, the tags, and the fields of the body, a space before each.
fn append_said(object: &Object, out: &mut Vec<u8>) -> Result<(), AllocError>
    ensures ok { OnOk result (out.new.items ≡ out.old.items
        ++ flat_map (λ f. space ∷ f) (tags_field object.now.tags ∷ body_fields object.now.body)) }
    ensures err { OnErr result (take (length out.old.items) out.new.items ≡ out.old.items) }
{
    append_tags(object.tags(), out)?;
    append_body(object.body(), out)
}
