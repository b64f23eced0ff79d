//! The object that the fields of a line make.

ghost use Rattle.std.specs.Prelude.{◌≡◌, ◌≢◌, ◌⊎◌, ℤ, ⊤, false, [], pos, IfOk, IfErr, MatchOption, None, Some};
ghost use Rattle.std.specs.Option.{unwrap_or};
ghost use Rattle.osm_model.specs.declared.axis.Axis.TheVariants as axes;
ghost use Rattle.osm_model.specs.declared.kind.Kind.TheVariants as kinds;
ghost use Rattle.opl_codec.specs.LineChanges.{SpellsParts, SpellsObject};
ghost use Rattle.opl_codec.specs.LineFaults.{StandsAt};
ghost use Rattle.opl_codec.specs.Values.{FitsAxis};
ghost use Rattle.opl_codec.specs.internal.LineObjects.{IsBodyWith, LacksPlace};
ghost use Rattle.opl_codec.specs.declared.cause.OplCause.TheVariants as OplCause;

use crate::cause::OplCause;
use crate::fault::OplFault;
use crate::line_content::content_of;
use crate::line_parts::LineParts;
use osm_model::{
    Body, Coord, Kind, MemberList, Meta, NodeList, Object, Ref, Stamp, Tag, TagList, Text,
};
use std::alloc::Global;

/// The object of this name that the parts of a line make, with defaults for what is missing.
///
/// Refused with `NoLocation` at the length of the line's content where a node has no location, and
/// with `OutsideModel` at 0 where the object's canonical line is over its limit.
pub(crate) fn object_of(
    alloc: Global,
    line: &[u8],
    name: Ref,
    parts: LineParts,
) -> Result<Object, OplFault>
    requires spelled { SpellsParts line.now name parts }
    requires visible { parts.visible ≢ Some false }
    ensures read { IfOk result (λ o. SpellsObject line.now o) }
    ensures real { IfErr result (λ fault. fault.cause ≢ OplCause.Memory) }
    ensures refused { IfErr result (λ fault. StandsAt line.now fault.cause fault.byte) }
{
    let place = place_of(parts.lon, parts.lat);
    let Some(body) = body_of(alloc, name.kind, place, parts.nodes, parts.members) else {
        return Err(OplFault {
            cause: OplCause::NoLocation,
            byte: content_of(line).len(),
        });
    };
    let meta = Meta {
        version: parts.version.unwrap_or(0),
        changeset: parts.changeset.unwrap_or(0),
        stamp: parts.stamp.unwrap_or(None),
        uid: parts.uid.unwrap_or(0),
        user: user_of(alloc, parts.user),
    };
    let tags = tags_of(alloc, parts.tags);
    match Object::new(name.id, meta, tags, body) {
        Ok(object) => Ok(object),
        Err(_) => Err(OplFault {
            cause: OplCause::OutsideModel,
            byte: 0,
        }),
    }
}

/// The name of the user, empty where it is missing. It takes no memory.
fn user_of(alloc: Global, user: Option<Text>) -> Text
    ensures { result ≡ unwrap_or user [] }
{
    match user {
        Some(user) => user,
        None => Text::new(String::new(alloc)),
    }
}

/// The tags, none where they are missing. It takes no memory.
fn tags_of(alloc: Global, tags: Option<TagList>) -> Vec<Tag>
    ensures { result.items ≡ unwrap_or tags [] }
{
    match tags {
        Some(tags) => tags.into_vec(),
        None => Vec::new(alloc),
    }
}

/// The location, where both coordinates are there.
fn place_of(lon: Option<Option<i32>>, lat: Option<Option<i32>>) -> Option<Coord>
    requires lon_within { MatchOption lon ⊤ (λ lon. FitsAxis axes.Lon lon) }
    requires lat_within { MatchOption lat ⊤ (λ lat. FitsAxis axes.Lat lat) }
    ensures { MatchOption result (LacksPlace lon lat) (λ place. (lon ≡ Some (Some place.lon))
        × (lat ≡ Some (Some place.lat))) }
{
    match (lon, lat) {
        (Some(Some(lon)), Some(Some(lat))) => Some(Coord::new(lon, lat)),
        _ => None,
    }
}

/// The body of an object of this kind; `None` for a node without a location. It takes no memory.
fn body_of(
    alloc: Global,
    kind: Kind,
    place: Option<Coord>,
    nodes: Option<NodeList>,
    members: Option<MemberList>,
) -> Option<Body>
    ensures { MatchOption result ((kind ≡ kinds.Node) × (place ≡ None))
        (λ body. IsBodyWith kind place nodes members body) }
{
    match kind {
        Kind::Node => Some(Body::Node(place?)),
        Kind::Way => Some(Body::Way(nodes_of(alloc, nodes))),
        Kind::Rel => Some(Body::Rel(members_of(alloc, members))),
    }
}

/// The nodes of a way, none where they are missing.
fn nodes_of(alloc: Global, nodes: Option<NodeList>) -> NodeList
    ensures { result ≡ unwrap_or nodes [] }
{
    match nodes {
        Some(nodes) => nodes,
        None => NodeList::new(Vec::new(alloc)),
    }
}

/// The members of a relation, none where they are missing.
fn members_of(alloc: Global, members: Option<MemberList>) -> MemberList
    ensures { result ≡ unwrap_or members [] }
{
    match members {
        Some(members) => members,
        None => MemberList::new(Vec::new(alloc)),
    }
}
