//! Tags, nodes and members as members of a JSON object.

ghost use Rattle.std.specs.Prelude.{◌≡◌, ◌++◌, ◌∷◌, flat_map, length, map, take, OnErr, OnOk};
ghost use Rattle.std.specs.Fmt.{signed_decimal};
ghost use Rattle.std.specs.List.{join_with_byte};
ghost use Rattle.osm_model.specs.Bytes.{comma};
ghost use Rattle.osm_forms.specs.JsonText.{json_member, json_members, json_nodes, json_role, json_tag, json_tags, json_target};

use crate::json_string::append_json_string;
use crate::number::{append_kind, append_labelled_number, append_number, append_words};
use osm_model::{Member, Ref, Tag, Text};
use std::alloc::AllocError;

/// Appends the tags, or nothing where there are none.
pub(crate) fn append_json_tags(tags: &[Tag], out: &mut Vec<u8>) -> Result<(), AllocError>
    ensures ok { OnOk result (out.new.items ≡ out.old.items ++ json_tags tags.now) }
    ensures err { OnErr result (take (length out.old.items) out.new.items ≡ out.old.items) }
{
    if tags.is_empty() {
        return Ok(());
    }
    append_words(",\"tags\":{", out)?;
    append_tag_list(tags, out)?;
    append_words("}", out)
}

/// Appends tags, a comma between two.
fn append_tag_list(tags: &[Tag], out: &mut Vec<u8>) -> Result<(), AllocError>
    ensures ok { OnOk result (out.new.items ≡ out.old.items
        ++ join_with_byte comma (map json_tag tags.now)) }
    ensures err { OnErr result (take (length out.old.items) out.new.items ≡ out.old.items) }
{
    let Some((first, others)) = tags.split_first() else {
        return Ok(());
    };
    append_tag(first, out)?;
    append_other_tags(others, out)
}

/// Appends each of these tags after a comma.
fn append_other_tags(tags: &[Tag], out: &mut Vec<u8>) -> Result<(), AllocError>
    ensures ok { OnOk result (out.new.items ≡ out.old.items
        ++ flat_map (λ x. comma ∷ json_tag x) tags.now) }
    ensures err { OnErr result (take (length out.old.items) out.new.items ≡ out.old.items) }
{
    for tag in tags {
        append_other_tag(tag, out)?;
    }
    Ok(())
}

/// Appends a comma and a tag.
fn append_other_tag(tag: &Tag, out: &mut Vec<u8>) -> Result<(), AllocError>
    ensures ok { OnOk result (out.new.items ≡ out.old.items ++ comma ∷ json_tag tag.now) }
    ensures err { OnErr result (take (length out.old.items) out.new.items ≡ out.old.items) }
{
    out.push(b',')?;
    append_tag(tag, out)
}

#[tactic(auto, unfolding(crate::specs::JsonText::json_tag))]
fn append_tag(tag: &Tag, out: &mut Vec<u8>) -> Result<(), AllocError>
    ensures ok { OnOk result (out.new.items ≡ out.old.items ++ json_tag tag.now) }
    ensures err { OnErr result (take (length out.old.items) out.new.items ≡ out.old.items) }
{
    append_json_string(tag.key.as_bytes(), out)?;
    append_words(":", out)?;
    append_json_string(tag.value.as_bytes(), out)
}

/// Appends the nodes of a way.
pub(crate) fn append_json_nodes(nodes: &[i64], out: &mut Vec<u8>) -> Result<(), AllocError>
    ensures ok { OnOk result (out.new.items ≡ out.old.items ++ json_nodes nodes.now) }
    ensures err { OnErr result (take (length out.old.items) out.new.items ≡ out.old.items) }
{
    append_words(",\"nodes\":[", out)?;
    append_node_list(nodes, out)?;
    append_words("]", out)
}

fn append_node_list(nodes: &[i64], out: &mut Vec<u8>) -> Result<(), AllocError>
    ensures ok { OnOk result (out.new.items ≡ out.old.items
        ++ join_with_byte comma (map (λ id. signed_decimal id) nodes.now)) }
    ensures err { OnErr result (take (length out.old.items) out.new.items ≡ out.old.items) }
{
    let Some((first, others)) = nodes.split_first() else {
        return Ok(());
    };
    append_number(*first, out)?;
    append_other_nodes(others, out)
}

/// Appends each of these nodes after a comma.
fn append_other_nodes(nodes: &[i64], out: &mut Vec<u8>) -> Result<(), AllocError>
    ensures ok { OnOk result (out.new.items ≡ out.old.items
        ++ flat_map (λ x. comma ∷ signed_decimal x) nodes.now) }
    ensures err { OnErr result (take (length out.old.items) out.new.items ≡ out.old.items) }
{
    for node in nodes {
        append_other_node(*node, out)?;
    }
    Ok(())
}

/// Appends a comma and a node.
fn append_other_node(id: i64, out: &mut Vec<u8>) -> Result<(), AllocError>
    ensures ok { OnOk result (out.new.items ≡ out.old.items ++ comma ∷ signed_decimal id) }
    ensures err { OnErr result (take (length out.old.items) out.new.items ≡ out.old.items) }
{
    out.push(b',')?;
    append_number(id, out)
}

/// Appends the members of a relation.
pub(crate) fn append_json_members(members: &[Member], out: &mut Vec<u8>) -> Result<(), AllocError>
    ensures ok { OnOk result (out.new.items ≡ out.old.items ++ json_members members.now) }
    ensures err { OnErr result (take (length out.old.items) out.new.items ≡ out.old.items) }
{
    append_words(",\"members\":[", out)?;
    append_member_list(members, out)?;
    append_words("]", out)
}

fn append_member_list(members: &[Member], out: &mut Vec<u8>) -> Result<(), AllocError>
    ensures ok { OnOk result (out.new.items ≡ out.old.items
        ++ join_with_byte comma (map json_member members.now)) }
    ensures err { OnErr result (take (length out.old.items) out.new.items ≡ out.old.items) }
{
    let Some((first, others)) = members.split_first() else {
        return Ok(());
    };
    append_member(first, out)?;
    append_other_members(others, out)
}

/// Appends each of these members after a comma.
fn append_other_members(members: &[Member], out: &mut Vec<u8>) -> Result<(), AllocError>
    ensures ok { OnOk result (out.new.items ≡ out.old.items
        ++ flat_map (λ x. comma ∷ json_member x) members.now) }
    ensures err { OnErr result (take (length out.old.items) out.new.items ≡ out.old.items) }
{
    for member in members {
        append_other_member(member, out)?;
    }
    Ok(())
}

/// Appends a comma and a member.
fn append_other_member(member: &Member, out: &mut Vec<u8>) -> Result<(), AllocError>
    ensures ok { OnOk result (out.new.items ≡ out.old.items ++ comma ∷ json_member member.now) }
    ensures err { OnErr result (take (length out.old.items) out.new.items ≡ out.old.items) }
{
    out.push(b',')?;
    append_member(member, out)
}

#[tactic(auto, unfolding(crate::specs::JsonText::json_member))]
fn append_member(member: &Member, out: &mut Vec<u8>) -> Result<(), AllocError>
    ensures ok { OnOk result (out.new.items ≡ out.old.items ++ json_member member.now) }
    ensures err { OnErr result (take (length out.old.items) out.new.items ≡ out.old.items) }
{
    append_target(member.target, out)?;
    append_role(&member.role, out)
}

/// Appends the beginning of a member: the object that it is.
fn append_target(target: Ref, out: &mut Vec<u8>) -> Result<(), AllocError>
    ensures ok { OnOk result (out.new.items ≡ out.old.items ++ json_target target) }
    ensures err { OnErr result (take (length out.old.items) out.new.items ≡ out.old.items) }
{
    append_words("{\"type\":\"", out)?;
    append_kind(target.kind, out)?;
    append_labelled_number("\",\"ref\":", target.id, out)
}

/// Appends the end of a member: its role.
fn append_role(role: &Text, out: &mut Vec<u8>) -> Result<(), AllocError>
    ensures ok { OnOk result (out.new.items ≡ out.old.items ++ json_role role.now) }
    ensures err { OnErr result (take (length out.old.items) out.new.items ≡ out.old.items) }
{
    append_words(",\"role\":", out)?;
    append_json_string(role.as_bytes(), out)?;
    append_words("}", out)
}
