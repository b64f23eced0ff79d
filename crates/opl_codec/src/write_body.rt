//! What is particular to a kind, to text.

ghost use Rattle.std.specs.Prelude.{◌≡◌, ◌++◌, ◌∷◌, length, take, flat_map, OnOk, OnErr};
ghost use Rattle.osm_model.specs.Bytes.{comma, space};
ghost use Rattle.osm_model.specs.CanonicalDegrees.{degrees};
ghost use Rattle.osm_model.specs.CanonicalLine.{body_fields, member_text, members_field, node_text, nodes_field};
ghost use Rattle.osm_model.specs.Letters.{latitude_letter, longitude_letter};

use crate::write_reference::append_reference;
use crate::write_text::append_text;
use osm_model::{Body, Coord, Kind, Member, Ref, write_degrees};
use std::alloc::AllocError;

/// Appends a space and the fields of a body, a space between two.
#[tactic(auto, using(crate::proofs::shared::AppendSteps::one_field))]
pub(crate) fn append_body(body: &Body, out: &mut Vec<u8>) -> Result<(), AllocError>
    ensures ok { OnOk result (out.new.items ≡ out.old.items
        ++ flat_map (λ f. space ∷ f) (body_fields body.now)) }
    ensures err { OnErr result (take (length out.old.items) out.new.items ≡ out.old.items) }
{
    match body {
        Body::Node(place) => append_place(*place, out),
        Body::Way(nodes) => append_nodes(nodes.as_slice(), out),
        Body::Rel(members) => append_members(members.as_slice(), out),
    }
}

fn append_place(place: Coord, out: &mut Vec<u8>) -> Result<(), AllocError>
    ensures ok { OnOk result (out.new.items ≡ out.old.items
        ++ (space ∷ longitude_letter ∷ degrees place.lon)
        ++ (space ∷ latitude_letter ∷ degrees place.lat)) }
    ensures err { OnErr result (take (length out.old.items) out.new.items ≡ out.old.items) }
{
    append_labelled_degrees(b" x", place.lon(), out)?;
    append_labelled_degrees(b" y", place.lat(), out)
}

/// Appends degrees after these letters.
fn append_labelled_degrees(label: &[u8], value: i32, out: &mut Vec<u8>) -> Result<(), AllocError>
    ensures ok { OnOk result (out.new.items ≡ out.old.items ++ (label.now ++ degrees value)) }
    ensures err { OnErr result (take (length out.old.items) out.new.items ≡ out.old.items) }
{
    out.extend_from_slice(label)?;
    out.extend_from_slice(write_degrees(value).as_bytes())
}

fn append_nodes(nodes: &[i64], out: &mut Vec<u8>) -> Result<(), AllocError>
    ensures ok { OnOk result (out.new.items ≡ out.old.items ++ space ∷ nodes_field nodes.now) }
    ensures err { OnErr result (take (length out.old.items) out.new.items ≡ out.old.items) }
{
    out.extend_from_slice(b" N")?;
    let Some((first, others)) = nodes.split_first() else {
        return Ok(());
    };
    append_node(*first, out)?;
    append_other_nodes(others, out)
}

/// Appends each of these nodes after a comma.
fn append_other_nodes(nodes: &[i64], out: &mut Vec<u8>) -> Result<(), AllocError>
    ensures ok { OnOk result (out.new.items ≡ out.old.items
        ++ flat_map (λ x. comma ∷ node_text x) nodes.now) }
    ensures err { OnErr result (take (length out.old.items) out.new.items ≡ out.old.items) }
{
    for node in nodes {
        append_other_node(*node, out)?;
    }
    Ok(())
}

/// Appends a comma and a node.
fn append_other_node(id: i64, out: &mut Vec<u8>) -> Result<(), AllocError>
    ensures ok { OnOk result (out.new.items ≡ out.old.items ++ comma ∷ node_text id) }
    ensures err { OnErr result (take (length out.old.items) out.new.items ≡ out.old.items) }
{
    out.push(b',')?;
    append_node(id, out)
}

fn append_node(id: i64, out: &mut Vec<u8>) -> Result<(), AllocError>
    ensures ok { OnOk result (out.new.items ≡ out.old.items ++ node_text id) }
    ensures err { OnErr result (take (length out.old.items) out.new.items ≡ out.old.items) }
{
    append_reference(
        Ref {
            kind: Kind::Node,
            id,
        },
        out,
    )
}

fn append_members(members: &[Member], out: &mut Vec<u8>) -> Result<(), AllocError>
    ensures ok { OnOk result (out.new.items ≡ out.old.items ++ space ∷ members_field members.now) }
    ensures err { OnErr result (take (length out.old.items) out.new.items ≡ out.old.items) }
{
    out.extend_from_slice(b" M")?;
    let Some((first, others)) = members.split_first() else {
        return Ok(());
    };
    append_member(first, out)?;
    append_other_members(others, out)
}

/// Appends each of these members after a comma.
fn append_other_members(members: &[Member], out: &mut Vec<u8>) -> Result<(), AllocError>
    ensures ok { OnOk result (out.new.items ≡ out.old.items
        ++ flat_map (λ x. comma ∷ member_text x) members.now) }
    ensures err { OnErr result (take (length out.old.items) out.new.items ≡ out.old.items) }
{
    for member in members {
        append_other_member(member, out)?;
    }
    Ok(())
}

/// Appends a comma and a member.
fn append_other_member(member: &Member, out: &mut Vec<u8>) -> Result<(), AllocError>
    ensures ok { OnOk result (out.new.items ≡ out.old.items ++ comma ∷ member_text member.now) }
    ensures err { OnErr result (take (length out.old.items) out.new.items ≡ out.old.items) }
{
    out.push(b',')?;
    append_member(member, out)
}

fn append_member(member: &Member, out: &mut Vec<u8>) -> Result<(), AllocError>
    ensures ok { OnOk result (out.new.items ≡ out.old.items ++ member_text member.now) }
    ensures err { OnErr result (take (length out.old.items) out.new.items ≡ out.old.items) }
{
    append_reference(member.target, out)?;
    out.push(b'@')?;
    append_text(&member.role, out)
}
