//! What the trees of a set of objects hold, listed object by object.

ghost use Rattle.std.specs.List.{All, Contains, flat_map};
ghost use Rattle.std.specs.Prelude.{◌≡◌, ◌↔◌, [], ◌∷◌, ◌++◌, ◌<◌, ◌≤◌, ◌^◌, IfOk, OnOk, length, map};
ghost use Rattle.osm_model.specs.Elements.{reference};
ghost use Rattle.osm_model.specs.Limits.{IsShort};
ghost use Rattle.tree_node.specs.Nodes.{Binding};
ghost use Rattle.osm_keys.specs.Entries.{IsEntryOfSome, object_entry};
ghost use Rattle.osm_keys.specs.Grains.{Whole};
ghost use Rattle.osm_index.specs.EntryLists.{IsKeyed};
ghost use Rattle.osm_index.specs.internal.Listing.{Gains, back_of, backs_of, cells_of, entries_from, member_back, node_back, tag_of};

use crate::entry_list::{EntryList, Span};
use opl_codec::{OutMode, write_object};
use osm_keys::{append_tag_key, back_key, cell_key, cell_value, reference_key};
use osm_model::{Body, Kind, Member, Object, ObjectSet, Ref, Tag};
use std::alloc::{AllocError, Global};
use tree_node::Tree;

/// The entries of a tree of these objects (this project's trees, docs/FORMATS.md), packed in one buffer;
/// `EntryList::sorted` lends them by rising key, each once.
///
/// Linear in what it writes. It takes the memory of the keys, the values and eight bytes an entry.
pub fn entries_of(alloc: Global, set: &ObjectSet, tree: Tree) -> Result<EntryList, AllocError>
    // These are the entries, some perhaps more than once,
    ensures members { IfOk result (λ list.
        (b : Binding) → Contains list b ↔ IsEntryOfSome Whole set.now tree b) }
    // and no two have one key but equal ones.
    ensures keyed { IfOk result (λ list. IsKeyed list) }
{
    let mut bytes = Vec::new(alloc);
    let mut spans = Vec::new(alloc);
    append_objects(set.as_slice(), tree, &mut bytes, &mut spans)?;
    Ok(EntryList::new(bytes, spans))
}

/// Packs the entries for these objects.
fn append_objects(
    objects: &[Object],
    tree: Tree,
    bytes: &mut Vec<u8>,
    spans: &mut Vec<Span>,
) -> Result<(), AllocError>
    ensures { OnOk result (Gains bytes.old.items bytes.new.items spans.old.items spans.new.items
        (flat_map (entries_from tree) objects.now)) }
{
    for object in objects {
        append_entries(object, tree, bytes, spans)?;
    }
    Ok(())
}

/// Packs the entries for one object.
fn append_entries(
    object: &Object,
    tree: Tree,
    bytes: &mut Vec<u8>,
    spans: &mut Vec<Span>,
) -> Result<(), AllocError>
    ensures { OnOk result (Gains bytes.old.items bytes.new.items spans.old.items spans.new.items
        (entries_from tree object.now)) }
{
    match tree {
        Tree::Objects => append_object(object, bytes, spans),
        Tree::Tags => append_tags(object.tags(), object.reference(), bytes, spans),
        Tree::Cells => append_cells(object.body(), object.id(), bytes, spans),
        Tree::Backs => append_backs(object.body(), object.reference(), bytes, spans),
    }
}

/// Packs an object under its reference.
fn append_object(
    object: &Object,
    bytes: &mut Vec<u8>,
    spans: &mut Vec<Span>,
) -> Result<(), AllocError>
    ensures { OnOk result (Gains bytes.old.items bytes.new.items spans.old.items spans.new.items
        (object_entry Whole object.now ∷ [])) }
{
    bytes.extend_from_slice(&reference_key(object.reference()))?;
    let start = bytes.len();
    write_object(object, OutMode::Meta, bytes)?;
    // The line's LF isn't part of the value.
    bytes.pop();
    spans.push(Span {
        key: 9,
        value: (bytes.len() - start) as u32,
    })?;
    Ok(())
}

/// Packs the tags of an object.
fn append_tags(
    tags: &[Tag],
    name: Ref,
    bytes: &mut Vec<u8>,
    spans: &mut Vec<Span>,
) -> Result<(), AllocError>
    requires { All (λ tag. IsShort tag.key × IsShort tag.value) tags.now }
    ensures { OnOk result (Gains bytes.old.items bytes.new.items spans.old.items spans.new.items
        (map (tag_of name) tags.now)) }
{
    for tag in tags {
        append_tag(tag, name, bytes, spans)?;
    }
    Ok(())
}

/// Packs a tag of an object.
fn append_tag(
    tag: &Tag,
    name: Ref,
    bytes: &mut Vec<u8>,
    spans: &mut Vec<Span>,
) -> Result<(), AllocError>
    requires key { IsShort tag.now.key }
    requires value { IsShort tag.now.value }
    ensures { OnOk result (Gains bytes.old.items bytes.new.items spans.old.items spans.new.items
        (tag_of name tag.now ∷ [])) }
{
    let start = bytes.len();
    append_tag_key(tag.key.as_bytes(), tag.value.as_bytes(), name, bytes)?;
    spans.push(Span {
        key: (bytes.len() - start) as u32,
        value: 0,
    })?;
    Ok(())
}

/// Packs a node of the map under its cell.
fn append_cells(
    body: &Body,
    id: i64,
    bytes: &mut Vec<u8>,
    spans: &mut Vec<Span>,
) -> Result<(), AllocError>
    ensures { OnOk result (Gains bytes.old.items bytes.new.items spans.old.items spans.new.items
        (cells_of body.now id)) }
{
    match body {
        Body::Node(place) => {
            bytes.extend_from_slice(&cell_key(*place, id))?;
            bytes.extend_from_slice(&cell_value(*place))?;
            spans.push(Span { key: 12, value: 8 })?;
            Ok(())
        }
        Body::Way(_) => Ok(()),
        Body::Rel(_) => Ok(()),
    }
}

/// Packs an object under all that its body lists.
fn append_backs(
    body: &Body,
    name: Ref,
    bytes: &mut Vec<u8>,
    spans: &mut Vec<Span>,
) -> Result<(), AllocError>
    ensures { OnOk result (Gains bytes.old.items bytes.new.items spans.old.items spans.new.items
        (backs_of body.now name)) }
{
    match body {
        Body::Node(_) => Ok(()),
        Body::Way(nodes) => append_node_backs(nodes.as_slice(), name, bytes, spans),
        Body::Rel(members) => append_member_backs(members.as_slice(), name, bytes, spans),
    }
}

/// Packs a way under its nodes.
fn append_node_backs(
    nodes: &[i64],
    name: Ref,
    bytes: &mut Vec<u8>,
    spans: &mut Vec<Span>,
) -> Result<(), AllocError>
    ensures { OnOk result (Gains bytes.old.items bytes.new.items spans.old.items spans.new.items
        (map (node_back name) nodes.now)) }
{
    for id in nodes {
        let target = Ref {
            kind: Kind::Node,
            id: *id,
        };
        append_back(target, name, bytes, spans)?;
    }
    Ok(())
}

/// Packs a relation under its members.
fn append_member_backs(
    members: &[Member],
    name: Ref,
    bytes: &mut Vec<u8>,
    spans: &mut Vec<Span>,
) -> Result<(), AllocError>
    ensures { OnOk result (Gains bytes.old.items bytes.new.items spans.old.items spans.new.items
        (map (member_back name) members.now)) }
{
    for member in members {
        append_back(member.target, name, bytes, spans)?;
    }
    Ok(())
}

/// Packs an object under one that it lists.
fn append_back(
    target: Ref,
    referrer: Ref,
    bytes: &mut Vec<u8>,
    spans: &mut Vec<Span>,
) -> Result<(), AllocError>
    ensures { OnOk result (Gains bytes.old.items bytes.new.items spans.old.items spans.new.items
        (back_of target referrer ∷ [])) }
{
    bytes.extend_from_slice(&back_key(target, referrer))?;
    spans.push(Span { key: 18, value: 0 })?;
    Ok(())
}
