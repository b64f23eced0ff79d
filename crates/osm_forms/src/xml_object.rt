//! Objects to XML.

ghost use Rattle.std.specs.Prelude.{◌≡◌, ◌++◌, length, take, OnErr, OnOk};
ghost use Rattle.osm_model.specs.Elements.{kind_of};
ghost use Rattle.osm_forms.specs.XmlText.{xml_attributes, xml_children, xml_content, xml_end, xml_head, xml_id, xml_ref, xml_of, xml_start, xml_tags};

use crate::number::{append_kind, append_labelled_number, append_words};
use crate::xml_attribute::{append_xml_meta, append_xml_place};
use crate::xml_list::{append_xml_members, append_xml_nodes, append_xml_tags};
use osm_model::{Body, Kind, Object, OutMode, Ref};
use std::alloc::AllocError;

/// Appends the XML element of an object in a mode, without a line end.
#[tactic(auto, unfolding(crate::specs::XmlText::xml_of))]
pub(crate) fn append_xml_object(
    object: &Object,
    mode: OutMode,
    out: &mut Vec<u8>,
) -> Result<(), AllocError>
    ensures ok { OnOk result (out.new.items ≡ out.old.items ++ xml_of object.now mode) }
    ensures err { OnErr result (take (length out.old.items) out.new.items ≡ out.old.items) }
{
    append_xml_start(object, mode, out)?;
    append_xml_content(object, mode, out)?;
    append_xml_end(object.reference().kind, out)
}

fn append_xml_start(object: &Object, mode: OutMode, out: &mut Vec<u8>) -> Result<(), AllocError>
    ensures ok { OnOk result (out.new.items ≡ out.old.items ++ xml_start object.now mode) }
    ensures err { OnErr result (take (length out.old.items) out.new.items ≡ out.old.items) }
{
    append_xml_ref(object.reference(), out)?;
    append_xml_head(object, mode, out)?;
    append_words(">", out)
}

/// Appends the beginning of the element of this name.
#[tactic(auto, unfolding(crate::specs::XmlText::xml_ref))]
pub(crate) fn append_xml_ref(name: Ref, out: &mut Vec<u8>) -> Result<(), AllocError>
    ensures ok { OnOk result (out.new.items ≡ out.old.items ++ xml_ref name) }
    ensures err { OnErr result (take (length out.old.items) out.new.items ≡ out.old.items) }
{
    append_words("<", out)?;
    append_kind(name.kind, out)?;
    append_xml_id(name.id, out)
}

fn append_xml_id(id: i64, out: &mut Vec<u8>) -> Result<(), AllocError>
    ensures ok { OnOk result (out.new.items ≡ out.old.items ++ xml_id id) }
    ensures err { OnErr result (take (length out.old.items) out.new.items ≡ out.old.items) }
{
    append_labelled_number(" id=\"", id, out)?;
    append_words("\"", out)
}

fn append_xml_head(object: &Object, mode: OutMode, out: &mut Vec<u8>) -> Result<(), AllocError>
    ensures ok { OnOk result (out.new.items ≡ out.old.items ++ xml_head object.now mode) }
    ensures err { OnErr result (take (length out.old.items) out.new.items ≡ out.old.items) }
{
    match mode {
        OutMode::Ids | OutMode::Tags => Ok(()),
        OutMode::Skel | OutMode::Body => append_xml_attributes(object.body(), out),
        OutMode::Meta => {
            append_xml_meta(object.meta(), out)?;
            append_xml_attributes(object.body(), out)
        }
    }
}

fn append_xml_attributes(body: &Body, out: &mut Vec<u8>) -> Result<(), AllocError>
    ensures ok { OnOk result (out.new.items ≡ out.old.items ++ xml_attributes body.now) }
    ensures err { OnErr result (take (length out.old.items) out.new.items ≡ out.old.items) }
{
    match body {
        Body::Node(place) => append_xml_place(*place, out),
        Body::Way(_) | Body::Rel(_) => Ok(()),
    }
}

fn append_xml_content(object: &Object, mode: OutMode, out: &mut Vec<u8>) -> Result<(), AllocError>
    ensures ok { OnOk result (out.new.items ≡ out.old.items ++ xml_content object.now mode) }
    ensures err { OnErr result (take (length out.old.items) out.new.items ≡ out.old.items) }
{
    match mode {
        OutMode::Ids => Ok(()),
        OutMode::Tags => append_xml_tags(object.tags(), out),
        OutMode::Skel => append_xml_children(object.body(), out),
        OutMode::Body | OutMode::Meta => append_xml_said(object, out),
    }
}

/// Appends the children of the body, and the tags.
fn append_xml_said(object: &Object, out: &mut Vec<u8>) -> Result<(), AllocError>
    ensures ok { OnOk result (out.new.items ≡ out.old.items
        ++ (xml_children object.now.body ++ xml_tags object.now.tags)) }
    ensures err { OnErr result (take (length out.old.items) out.new.items ≡ out.old.items) }
{
    append_xml_children(object.body(), out)?;
    append_xml_tags(object.tags(), out)
}

fn append_xml_children(body: &Body, out: &mut Vec<u8>) -> Result<(), AllocError>
    ensures ok { OnOk result (out.new.items ≡ out.old.items ++ xml_children body.now) }
    ensures err { OnErr result (take (length out.old.items) out.new.items ≡ out.old.items) }
{
    match body {
        Body::Node(_) => Ok(()),
        Body::Way(nodes) => append_xml_nodes(nodes.as_slice(), out),
        Body::Rel(members) => append_xml_members(members.as_slice(), out),
    }
}

/// Appends the end of the element of an object of this kind.
#[tactic(auto, unfolding(crate::specs::XmlText::xml_end))]
pub(crate) fn append_xml_end(kind: Kind, out: &mut Vec<u8>) -> Result<(), AllocError>
    ensures ok { OnOk result (out.new.items ≡ out.old.items ++ xml_end kind) }
    ensures err { OnErr result (take (length out.old.items) out.new.items ≡ out.old.items) }
{
    append_words("</", out)?;
    append_kind(kind, out)?;
    append_words(">", out)
}
