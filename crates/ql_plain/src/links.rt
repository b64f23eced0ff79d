//! Links of membership: from the ways and relations of a set to what they list.

ghost use Rattle.std.specs.Prelude.{◌≡◌, [], IfOk, OnOk};
ghost use Rattle.osm_model.specs.Elements.{reference};
ghost use Rattle.ref_sets.specs.Adding.{Adds, From};
ghost use Rattle.ql_plain.specs.internal.Linked.{AreLinks, IsLinkOf, IsLinkTo, IsLinkToMember, IsLinkToNode};

use osm_model::{Body, Kind, Member, Object, ObjectSet, Ref};
use std::alloc::{AllocError, Global};

/// An object of a set, and one that it lists.
#[derive(Clone, Copy)]
pub(crate) struct Link {
    /// The one that lists.
    pub(crate) parent: Ref,
    /// What it lists.
    pub(crate) child: Ref,
}

/// All links between objects of a set; a link comes as often as a way or relation lists the other object. One pass
/// over the objects, and a binary search for each item that they list.
pub(crate) fn links(alloc: Global, set: &ObjectSet) -> Result<Vec<Link>, AllocError>
    ensures { IfOk result (λ links. AreLinks set.now links.items) }
{
    let objects = set.as_slice();
    let mut links = Vec::new(alloc);
    for object in objects {
        add_links(object, set, &mut links)?;
    }
    Ok(links)
}

/// Adds the links of an object to what it lists.
fn add_links(object: &Object, set: &ObjectSet, links: &mut Vec<Link>) -> Result<(), AllocError>
    ensures { OnOk result (Adds links.old.items links.new.items (IsLinkOf set.now object.now)) }
{
    let parent = object.reference();
    match object.body() {
        Body::Node(_) => Ok(()),
        Body::Way(nodes) => add_links_to_nodes(parent, nodes.as_slice(), set, links),
        Body::Rel(members) => add_links_to_members(parent, members.as_slice(), set, links),
    }
}

/// Adds the links to the nodes of a way.
fn add_links_to_nodes(
    parent: Ref,
    nodes: &[i64],
    set: &ObjectSet,
    links: &mut Vec<Link>,
) -> Result<(), AllocError>
    ensures { OnOk result (Adds links.old.items links.new.items (From nodes.now (IsLinkToNode set.now parent))) }
{
    for id in nodes {
        let child = Ref {
            kind: Kind::Node,
            id: *id,
        };
        add_link(parent, child, set, links)?;
    }
    Ok(())
}

/// Adds the links to the members of a relation.
fn add_links_to_members(
    parent: Ref,
    members: &[Member],
    set: &ObjectSet,
    links: &mut Vec<Link>,
) -> Result<(), AllocError>
    ensures { OnOk result (Adds links.old.items links.new.items (From members.now (IsLinkToMember set.now parent))) }
{
    for member in members {
        add_link(parent, member.target, set, links)?;
    }
    Ok(())
}

/// Adds a link where its child is in the set.
fn add_link(
    parent: Ref,
    child: Ref,
    set: &ObjectSet,
    links: &mut Vec<Link>,
) -> Result<(), AllocError>
    ensures { OnOk result (Adds links.old.items links.new.items (IsLinkTo set.now parent child)) }
{
    if set.get(child).is_some() {
        links.push(Link { parent, child })?;
    }
    Ok(())
}
