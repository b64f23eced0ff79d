//! What the trees of a set of objects hold, listed object by object.

ghost use Rattle.std.specs.List.{All, Contains, flat_map};
ghost use Rattle.std.specs.Prelude.{◌≡◌, ◌↔◌, ◌^◌, [], ◌∷◌, ◌<◌, IfOk, OnOk, length, map};
ghost use Rattle.osm_model.specs.Limits.{IsShort};
ghost use Rattle.tree_node.specs.Nodes.{Binding};
ghost use Rattle.osm_index.specs.EntryLists.{IsKeyed};
ghost use Rattle.light_index.specs.LightLines.{AreLinesOf};
ghost use Rattle.light_index.specs.internal.LightListing.{Gains, back_of, backs_of, cells_of, light_entries_from, member_back, node_back, tag_of};
ghost use Rattle.osm_keys.specs.Entries.{IsEntryOfSome};
ghost use Rattle.osm_keys.specs.Grains.{Lines};
ghost use Rattle.osm_keys.specs.Lines.{digest_of_line};

use crate::light_entry_list::{LightEntryList, LightSpan};
use light_keys::{fine_cell_key, fine_cell_value, line_value};
use osm_keys::{append_tag_key, back_key, reference_key};
use osm_model::{Body, Kind, Member, Object, ObjectSet, Ref, Tag};
use std::alloc::{AllocError, Global};
use tree_node::{Digest, NewNode, Tree};

/// The entries of a tree of these objects, whose lines are these, packed in one buffer; `LightEntryList::sorted` lends
/// them by rising key, each once. `line_nodes` gives the lines.
///
/// Linear in what it writes: no line is written or digested again. It takes the memory of the keys, the values and
/// eight bytes an entry, and fails only if memory runs out.
pub fn light_entries_of(
    alloc: Global,
    set: &ObjectSet,
    lines: &[NewNode],
    tree: Tree,
) -> Result<LightEntryList, AllocError>
    requires { AreLinesOf set.now lines.now }
    // These are the entries, some perhaps more than once,
    ensures members { IfOk result (λ list.
        (b : Binding) → Contains list b ↔ IsEntryOfSome Lines set.now tree b) }
    // and no two have one key but equal ones.
    ensures keyed { IfOk result (λ list. IsKeyed list) }
{
    let mut bytes = Vec::new(alloc);
    let mut spans = Vec::new(alloc);
    append_objects(set.as_slice(), lines, tree, &mut bytes, &mut spans)?;
    Ok(LightEntryList::new(bytes, spans))
}

/// Packs the entries for these objects.
fn append_objects(
    objects: &[Object],
    lines: &[NewNode],
    tree: Tree,
    bytes: &mut Vec<u8>,
    spans: &mut Vec<LightSpan>,
) -> Result<(), AllocError>
    requires { AreLinesOf objects.now lines.now }
    ensures { OnOk result (Gains bytes.old.items bytes.new.items spans.old.items spans.new.items
        (flat_map (light_entries_from tree) objects.now)) }
{
    for (object, line) in objects.iter().zip(lines) {
        append_entries(object, &line.digest, tree, bytes, spans)?;
    }
    Ok(())
}

/// Packs the entries for one object, whose line has this digest.
fn append_entries(
    object: &Object,
    line: &Digest,
    tree: Tree,
    bytes: &mut Vec<u8>,
    spans: &mut Vec<LightSpan>,
) -> Result<(), AllocError>
    requires { line.now.0 ≡ digest_of_line object.now }
    ensures { OnOk result (Gains bytes.old.items bytes.new.items spans.old.items spans.new.items
        (light_entries_from tree object.now)) }
{
    let name = object.reference();
    match tree {
        Tree::Objects => append_entry(&reference_key(name), &line_value(*line), bytes, spans),
        Tree::Tags => append_tags(object.tags(), name, line, bytes, spans),
        Tree::Cells => append_cells(object.body(), object.id(), line, bytes, spans),
        Tree::Backs => append_backs(object.body(), name, line, bytes, spans),
    }
}

/// Packs the tags of an object.
fn append_tags(
    tags: &[Tag],
    name: Ref,
    line: &Digest,
    bytes: &mut Vec<u8>,
    spans: &mut Vec<LightSpan>,
) -> Result<(), AllocError>
    requires { All (λ tag. IsShort tag.key × IsShort tag.value) tags.now }
    ensures { OnOk result (Gains bytes.old.items bytes.new.items spans.old.items spans.new.items
        (map (tag_of name line.now.0) tags.now)) }
{
    for tag in tags {
        append_tag(tag, name, line, bytes, spans)?;
    }
    Ok(())
}

/// Packs a tag of an object.
fn append_tag(
    tag: &Tag,
    name: Ref,
    line: &Digest,
    bytes: &mut Vec<u8>,
    spans: &mut Vec<LightSpan>,
) -> Result<(), AllocError>
    requires key { IsShort tag.now.key }
    requires value { IsShort tag.now.value }
    ensures { OnOk result (Gains bytes.old.items bytes.new.items spans.old.items spans.new.items
        (tag_of name line.now.0 tag.now ∷ [])) }
{
    let start = bytes.len();
    append_tag_key(tag.key.as_bytes(), tag.value.as_bytes(), name, bytes)?;
    let key = (bytes.len() - start) as u32;
    bytes.extend_from_slice(&line_value(*line))?;
    spans.push(LightSpan { key, value: 32 })?;
    Ok(())
}

/// Packs a node of the map under its cell.
fn append_cells(
    body: &Body,
    id: i64,
    line: &Digest,
    bytes: &mut Vec<u8>,
    spans: &mut Vec<LightSpan>,
) -> Result<(), AllocError>
    ensures { OnOk result (Gains bytes.old.items bytes.new.items spans.old.items spans.new.items
        (cells_of body.now id line.now.0)) }
{
    match body {
        Body::Node(place) => {
            let value = fine_cell_value(place.lat(), line);
            append_entry(&fine_cell_key(*place, id), &value, bytes, spans)
        }
        Body::Way(_) => Ok(()),
        Body::Rel(_) => Ok(()),
    }
}

/// Packs an object under all that its body lists.
fn append_backs(
    body: &Body,
    name: Ref,
    line: &Digest,
    bytes: &mut Vec<u8>,
    spans: &mut Vec<LightSpan>,
) -> Result<(), AllocError>
    ensures { OnOk result (Gains bytes.old.items bytes.new.items spans.old.items spans.new.items
        (backs_of body.now name line.now.0)) }
{
    match body {
        Body::Node(_) => Ok(()),
        Body::Way(nodes) => append_node_backs(nodes.as_slice(), name, line, bytes, spans),
        Body::Rel(members) => append_member_backs(members.as_slice(), name, line, bytes, spans),
    }
}

/// Packs a way under its nodes.
fn append_node_backs(
    nodes: &[i64],
    name: Ref,
    line: &Digest,
    bytes: &mut Vec<u8>,
    spans: &mut Vec<LightSpan>,
) -> Result<(), AllocError>
    ensures { OnOk result (Gains bytes.old.items bytes.new.items spans.old.items spans.new.items
        (map (node_back name line.now.0) nodes.now)) }
{
    for id in nodes {
        let target = Ref {
            kind: Kind::Node,
            id: *id,
        };
        append_back(target, name, line, bytes, spans)?;
    }
    Ok(())
}

/// Packs a relation under its members.
fn append_member_backs(
    members: &[Member],
    name: Ref,
    line: &Digest,
    bytes: &mut Vec<u8>,
    spans: &mut Vec<LightSpan>,
) -> Result<(), AllocError>
    ensures { OnOk result (Gains bytes.old.items bytes.new.items spans.old.items spans.new.items
        (map (member_back name line.now.0) members.now)) }
{
    for member in members {
        append_back(member.target, name, line, bytes, spans)?;
    }
    Ok(())
}

/// Packs an object under one that it lists.
fn append_back(
    target: Ref,
    referrer: Ref,
    line: &Digest,
    bytes: &mut Vec<u8>,
    spans: &mut Vec<LightSpan>,
) -> Result<(), AllocError>
    ensures { OnOk result (Gains bytes.old.items bytes.new.items spans.old.items spans.new.items
        (back_of referrer line.now.0 target ∷ [])) }
{
    append_entry(
        &back_key(target, referrer),
        &line_value(*line),
        bytes,
        spans,
    )
}

/// Packs an entry.
fn append_entry(
    key: &[u8],
    value: &[u8],
    bytes: &mut Vec<u8>,
    spans: &mut Vec<LightSpan>,
) -> Result<(), AllocError>
    requires short_key { length key.now < 2 ^ 32 }
    requires short_value { length value.now < 2 ^ 32 }
    ensures { OnOk result (Gains bytes.old.items bytes.new.items spans.old.items spans.new.items
        (record { key = key.now; value = value.now } ∷ [])) }
{
    bytes.extend_from_slice(key)?;
    bytes.extend_from_slice(value)?;
    spans.push(LightSpan {
        key: key.len() as u32,
        value: value.len() as u32,
    })?;
    Ok(())
}
