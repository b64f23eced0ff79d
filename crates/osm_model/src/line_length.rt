//! The length of an object's canonical line.

ghost use Rattle.std.specs.Prelude.{◌≡◌, ◌≤◌, ◌+◌, ◌^◌, ◌-◌, ◌↔◌, ℕ, IsTrue, length, max, min};
ghost use Rattle.std.specs.List.{sum_by};
ghost use Rattle.std.specs.Fmt.{signed_decimal, decimal};
ghost use Rattle.osm_model.specs.CanonicalDegrees.{degrees};
ghost use Rattle.osm_model.specs.CanonicalLine.{canonical_line, escaped, escaped_char, moment, all_fields, meta_fields, body_fields};
ghost use Rattle.osm_model.specs.internal.LineLength.{spaced_len, text_bytes, tag_bytes, member_bytes, tag_len, node_len, member_len};

use crate::body::{Body, members_of, nodes_of, note_body};
use crate::degrees_text::write_degrees;
use crate::escape::{hex_places, is_literal};
use crate::limits::LINE_LIMIT;
use crate::member::Member;
use crate::meta::{Meta, note_numbers};
use crate::stamp::Stamp;
use crate::tag::Tag;
use itoa::Buffer;

/// Whether the canonical line of an object of these parts keeps its limit. Few bytes of text make a
/// short line, so most lines are not measured.
pub(crate) fn has_short_line(id: i64, meta: &Meta, tags: &[Tag], body: &Body) -> bool
    ensures { IsTrue result ↔ (length (canonical_line (record { id = id; meta = meta.now; tags = tags.now; body = body.now })) ≤ LINE_LIMIT) }
{
    if text_bytes(meta, tags, body) <= FEW {
        // For the proof alone: numbers in range have few digits.
        note_numbers(meta);
        // For the proof alone: so do those of the body.
        note_body(body);
        return true;
    }
    // The fields have one byte more than the line: none follows the last.
    fields_len(id, meta, tags, body) <= LINE_LIMIT + 1
}

/// Bytes of text that make a short line, however they are escaped: eight times as many, and the numbers
/// beside them, keep the limit.
const FEW: u64 = 2_000_000;

/// The bytes of text, with a few more for each item of the lists. Sums stay at their greatest, here and
/// below, which is far above the limit.
fn text_bytes(meta: &Meta, tags: &[Tag], body: &Body) -> u64
    ensures { result ≡ min (text_bytes meta.now tags.now body.now) (2 ^ 64 - 1) }
{
    let nodes = (nodes_of(body).len() as u64).saturating_mul(3);
    (meta.user.len() as u64)
        .saturating_add(tags_bytes(tags))
        .saturating_add(nodes)
        .saturating_add(members_bytes(members_of(body)))
}

fn tags_bytes(tags: &[Tag]) -> u64
    ensures { result ≡ min (sum_by tag_bytes tags.now) (2 ^ 64 - 1) }
{
    let mut bytes = 0u64;
    for tag in tags {
        bytes = bytes.saturating_add(tag_bytes(tag));
    }
    bytes
}

fn tag_bytes(tag: &Tag) -> u64
    ensures { result ≡ min (tag_bytes tag.now) (2 ^ 64 - 1) }
{
    (tag.key.len() as u64)
        .saturating_add(tag.value.len() as u64)
        .saturating_add(2)
}

fn members_bytes(members: &[Member]) -> u64
    ensures { result ≡ min (sum_by member_bytes members.now) (2 ^ 64 - 1) }
{
    let mut bytes = 0u64;
    for member in members {
        bytes = bytes.saturating_add(member_bytes(member));
    }
    bytes
}

fn member_bytes(member: &Member) -> u64
    ensures { result ≡ min (member_bytes member.now) (2 ^ 64 - 1) }
{
    (member.role.len() as u64).saturating_add(3)
}

/// The bytes of all fields, each with the one that separates it from the next.
fn fields_len(id: i64, meta: &Meta, tags: &[Tag], body: &Body) -> u64
    ensures { result ≡ min (spaced_len (all_fields (record { id = id; meta = meta.now; tags = tags.now; body = body.now }))) (2 ^ 64 - 1) }
{
    field_len(signed_len(id))
        .saturating_add(meta_len(meta))
        .saturating_add(list_len(tags_len(tags)))
        .saturating_add(body_len(body))
}

/// The bytes of a field: its letter, so many bytes, and the one that separates it from the next.
fn field_len(content: u64) -> u64
    ensures { result ≡ min (1 + content + 1) (2 ^ 64 - 1) }
{
    content.saturating_add(2)
}

/// The bytes of a field that lists texts, from the bytes of these, each with its comma: the letter
/// stands for the comma that the last lacks. With the one that separates it from the next.
fn list_len(texts: u64) -> u64
    ensures { result ≡ min (max texts 1 + 1) (2 ^ 64 - 1) }
{
    texts.max(1).saturating_add(1)
}

fn meta_len(meta: &Meta) -> u64
    ensures { result ≡ min (spaced_len (meta_fields meta.now)) (2 ^ 64 - 1) }
{
    let visible = field_len(1);
    field_len(unsigned_len(meta.version))
        .saturating_add(visible)
        .saturating_add(field_len(signed_len(meta.changeset)))
        .saturating_add(field_len(stamp_len(meta.stamp)))
        .saturating_add(field_len(signed_len(meta.uid)))
        .saturating_add(field_len(escaped_len(meta.user.as_str())))
}

fn body_len(body: &Body) -> u64
    ensures { result ≡ min (spaced_len (body_fields body.now)) (2 ^ 64 - 1) }
{
    match body {
        Body::Node(place) => {
            let lon = field_len(degrees_len(place.lon()));
            lon.saturating_add(field_len(degrees_len(place.lat())))
        }
        Body::Way(nodes) => list_len(nodes_len(nodes.as_slice())),
        Body::Rel(members) => list_len(members_len(members.as_slice())),
    }
}

fn signed_len(number: i64) -> u64
    ensures { result ≡ length (signed_decimal number) }
{
    Buffer::new().format(number).len() as u64
}

fn unsigned_len(number: u32) -> u64
    ensures { result ≡ length (decimal number) }
{
    Buffer::new().format(number).len() as u64
}

fn stamp_len(stamp: Option<Stamp>) -> u64
    ensures { result ≡ length (moment stamp) }
{
    if stamp.is_some() { 20 } else { 0 }
}

fn degrees_len(value: i32) -> u64
    ensures { result ≡ length (degrees value) }
{
    write_degrees(value).len() as u64
}

/// The bytes of tags, each with its comma.
fn tags_len(tags: &[Tag]) -> u64
    ensures { result ≡ min (sum_by tag_len tags.now) (2 ^ 64 - 1) }
{
    let mut len = 0u64;
    for tag in tags {
        len = len.saturating_add(tag_len(tag));
    }
    len
}

fn tag_len(tag: &Tag) -> u64
    ensures { result ≡ min (tag_len tag.now) (2 ^ 64 - 1) }
{
    let key = escaped_len(tag.key.as_str());
    let value = escaped_len(tag.value.as_str());
    key.saturating_add(value).saturating_add(2)
}

/// The bytes of a way's nodes, each with its comma.
fn nodes_len(nodes: &[i64]) -> u64
    ensures { result ≡ min (sum_by node_len nodes.now) (2 ^ 64 - 1) }
{
    let mut len = 0u64;
    for id in nodes {
        len = len.saturating_add(field_len(signed_len(*id)));
    }
    len
}

/// The bytes of members, each with its comma.
fn members_len(members: &[Member]) -> u64
    ensures { result ≡ min (sum_by member_len members.now) (2 ^ 64 - 1) }
{
    let mut len = 0u64;
    for member in members {
        len = len.saturating_add(member_len(member));
    }
    len
}

fn member_len(member: &Member) -> u64
    ensures { result ≡ min (member_len member.now) (2 ^ 64 - 1) }
{
    let target = field_len(signed_len(member.target.id));
    target
        .saturating_add(1)
        .saturating_add(escaped_len(member.role.as_str()))
}

fn escaped_len(text: &str) -> u64
    ensures { result ≡ min (length (escaped text.now)) (2 ^ 64 - 1) }
{
    let mut len = 0u64;
    for c in text.chars() {
        len = len.saturating_add(escaped_char_len(c));
    }
    len
}

#[tactic(auto, using(crate::proofs::LineLengths::length_of_escape))]
fn escaped_char_len(c: char) -> u64
    ensures { result ≡ length (escaped_char c) }
{
    let code = c as u32;
    if is_literal(code) {
        1
    } else {
        2 + hex_places(code) as u64
    }
}
