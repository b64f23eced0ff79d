//! Tags, nodes and members as XML elements.

ghost use Rattle.std.specs.Prelude.{◌≡◌, ◌++◌, flat_map, length, take, OnErr, OnOk};
ghost use Rattle.osm_forms.specs.XmlText.{xml_member, xml_node, xml_role, xml_tag, xml_tag_key, xml_tag_value, xml_tags, xml_target};

use crate::number::{append_kind, append_labelled_number, append_words};
use crate::xml_text::append_xml_text;
use osm_model::{Member, Ref, Tag, Text};
use std::alloc::AllocError;

/// Appends tags.
pub(crate) fn append_xml_tags(tags: &[Tag], out: &mut Vec<u8>) -> Result<(), AllocError>
    ensures ok { OnOk result (out.new.items ≡ out.old.items ++ xml_tags tags.now) }
    ensures err { OnErr result (take (length out.old.items) out.new.items ≡ out.old.items) }
{
    for tag in tags {
        append_xml_tag(tag, out)?;
    }
    Ok(())
}

#[tactic(auto, unfolding(crate::specs::XmlText::xml_tag))]
fn append_xml_tag(tag: &Tag, out: &mut Vec<u8>) -> Result<(), AllocError>
    ensures ok { OnOk result (out.new.items ≡ out.old.items ++ xml_tag tag.now) }
    ensures err { OnErr result (take (length out.old.items) out.new.items ≡ out.old.items) }
{
    append_xml_key(&tag.key, out)?;
    append_xml_value(&tag.value, out)
}

fn append_xml_key(key: &Text, out: &mut Vec<u8>) -> Result<(), AllocError>
    ensures ok { OnOk result (out.new.items ≡ out.old.items ++ xml_tag_key key.now) }
    ensures err { OnErr result (take (length out.old.items) out.new.items ≡ out.old.items) }
{
    append_words("<tag k=\"", out)?;
    append_xml_text(key, out)
}

fn append_xml_value(value: &Text, out: &mut Vec<u8>) -> Result<(), AllocError>
    ensures ok { OnOk result (out.new.items ≡ out.old.items ++ xml_tag_value value.now) }
    ensures err { OnErr result (take (length out.old.items) out.new.items ≡ out.old.items) }
{
    append_words("\" v=\"", out)?;
    append_xml_text(value, out)?;
    append_words("\"/>", out)
}

/// Appends the nodes of a way.
pub(crate) fn append_xml_nodes(nodes: &[i64], out: &mut Vec<u8>) -> Result<(), AllocError>
    ensures ok { OnOk result (out.new.items ≡ out.old.items
        ++ flat_map (λ id. xml_node id) nodes.now) }
    ensures err { OnErr result (take (length out.old.items) out.new.items ≡ out.old.items) }
{
    for node in nodes {
        append_xml_node(*node, out)?;
    }
    Ok(())
}

#[tactic(auto, unfolding(crate::specs::XmlText::xml_node))]
fn append_xml_node(id: i64, out: &mut Vec<u8>) -> Result<(), AllocError>
    ensures ok { OnOk result (out.new.items ≡ out.old.items ++ xml_node id) }
    ensures err { OnErr result (take (length out.old.items) out.new.items ≡ out.old.items) }
{
    append_labelled_number("<nd ref=\"", id, out)?;
    append_words("\"/>", out)
}

/// Appends the members of a relation.
pub(crate) fn append_xml_members(members: &[Member], out: &mut Vec<u8>) -> Result<(), AllocError>
    ensures ok { OnOk result (out.new.items ≡ out.old.items
        ++ flat_map (λ member. xml_member member) members.now) }
    ensures err { OnErr result (take (length out.old.items) out.new.items ≡ out.old.items) }
{
    for member in members {
        append_xml_member(member, out)?;
    }
    Ok(())
}

#[tactic(auto, unfolding(crate::specs::XmlText::xml_member))]
fn append_xml_member(member: &Member, out: &mut Vec<u8>) -> Result<(), AllocError>
    ensures ok { OnOk result (out.new.items ≡ out.old.items ++ xml_member member.now) }
    ensures err { OnErr result (take (length out.old.items) out.new.items ≡ out.old.items) }
{
    append_xml_target(member.target, out)?;
    append_xml_role(&member.role, out)
}

fn append_xml_target(target: Ref, out: &mut Vec<u8>) -> Result<(), AllocError>
    ensures ok { OnOk result (out.new.items ≡ out.old.items ++ xml_target target) }
    ensures err { OnErr result (take (length out.old.items) out.new.items ≡ out.old.items) }
{
    append_words("<member type=\"", out)?;
    append_kind(target.kind, out)?;
    append_labelled_number("\" ref=\"", target.id, out)
}

fn append_xml_role(role: &Text, out: &mut Vec<u8>) -> Result<(), AllocError>
    ensures ok { OnOk result (out.new.items ≡ out.old.items ++ xml_role role.now) }
    ensures err { OnErr result (take (length out.old.items) out.new.items ≡ out.old.items) }
{
    append_words("\" role=\"", out)?;
    append_xml_text(role, out)?;
    append_words("\"/>", out)
}
