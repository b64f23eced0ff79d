//! Objects to JSON.

ghost use Rattle.std.specs.Prelude.{◌≡◌, ◌++◌, length, take, OnErr, OnOk};
ghost use Rattle.osm_model.specs.CanonicalDegrees.{degrees};
ghost use Rattle.osm_forms.specs.JsonText.{json_body, json_ref, json_of, json_rest, json_tags};

use crate::json_list::{append_json_members, append_json_nodes, append_json_tags};
use crate::json_meta::append_json_meta;
use crate::number::{append_kind, append_labelled_number, append_words};
use osm_model::{Body, Coord, Object, OutMode, Ref, write_degrees};
use std::alloc::AllocError;

/// Appends the JSON object of an object in a mode, without blanks and without a line end.
#[tactic(auto, unfolding(crate::specs::JsonText::json_of))]
pub(crate) fn append_json_object(
    object: &Object,
    mode: OutMode,
    out: &mut Vec<u8>,
) -> Result<(), AllocError>
    ensures ok { OnOk result (out.new.items ≡ out.old.items ++ json_of object.now mode) }
    ensures err { OnErr result (take (length out.old.items) out.new.items ≡ out.old.items) }
{
    append_json_ref(object.reference(), out)?;
    append_json_rest(object, mode, out)?;
    append_words("}", out)
}

/// Appends the beginning of the object of this name.
pub(crate) fn append_json_ref(name: Ref, out: &mut Vec<u8>) -> Result<(), AllocError>
    ensures ok { OnOk result (out.new.items ≡ out.old.items ++ json_ref name) }
    ensures err { OnErr result (take (length out.old.items) out.new.items ≡ out.old.items) }
{
    append_words("{\"type\":\"", out)?;
    append_kind(name.kind, out)?;
    append_labelled_number("\",\"id\":", name.id, out)
}

fn append_json_rest(object: &Object, mode: OutMode, out: &mut Vec<u8>) -> Result<(), AllocError>
    ensures ok { OnOk result (out.new.items ≡ out.old.items ++ json_rest object.now mode) }
    ensures err { OnErr result (take (length out.old.items) out.new.items ≡ out.old.items) }
{
    match mode {
        OutMode::Ids => Ok(()),
        OutMode::Tags => append_json_tags(object.tags(), out),
        OutMode::Skel => append_json_body(object.body(), out),
        OutMode::Body => append_json_said(object, out),
        OutMode::Meta => {
            append_json_meta(object.meta(), out)?;
            append_json_said(object, out)
        }
    }
}

/// Appends the body and the tags.
fn append_json_said(object: &Object, out: &mut Vec<u8>) -> Result<(), AllocError>
    ensures ok { OnOk result (out.new.items ≡ out.old.items
        ++ (json_body object.now.body ++ json_tags object.now.tags)) }
    ensures err { OnErr result (take (length out.old.items) out.new.items ≡ out.old.items) }
{
    append_json_body(object.body(), out)?;
    append_json_tags(object.tags(), out)
}

fn append_json_body(body: &Body, out: &mut Vec<u8>) -> Result<(), AllocError>
    ensures ok { OnOk result (out.new.items ≡ out.old.items ++ json_body body.now) }
    ensures err { OnErr result (take (length out.old.items) out.new.items ≡ out.old.items) }
{
    match body {
        Body::Node(place) => append_json_place(*place, out),
        Body::Way(nodes) => append_json_nodes(nodes.as_slice(), out),
        Body::Rel(members) => append_json_members(members.as_slice(), out),
    }
}

fn append_json_place(place: Coord, out: &mut Vec<u8>) -> Result<(), AllocError>
    ensures ok { OnOk result (out.new.items ≡ out.old.items ++ json_body (Body.Node place)) }
    ensures err { OnErr result (take (length out.old.items) out.new.items ≡ out.old.items) }
{
    append_labelled_degrees(",\"lat\":", place.lat(), out)?;
    append_labelled_degrees(",\"lon\":", place.lon(), out)
}

/// Appends degrees after these letters.
pub(crate) fn append_labelled_degrees(
    label: &str,
    value: i32,
    out: &mut Vec<u8>,
) -> Result<(), AllocError>
    ensures ok { OnOk result (out.new.items ≡ out.old.items ++ (label.now ++ degrees value)) }
    ensures err { OnErr result (take (length out.old.items) out.new.items ≡ out.old.items) }
{
    append_words(label, out)?;
    append_degrees(value, out)
}

/// Appends degrees.
pub(crate) fn append_degrees(value: i32, out: &mut Vec<u8>) -> Result<(), AllocError>
    ensures ok { OnOk result (out.new.items ≡ out.old.items ++ degrees value) }
    ensures err { OnErr result (take (length out.old.items) out.new.items ≡ out.old.items) }
{
    out.extend_from_slice(write_degrees(value).as_bytes())
}
