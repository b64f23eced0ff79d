//! The children of a node.

ghost use Rattle.std.specs.Prelude.{◌≡◌, ◌++◌, ℕ, List, OnOk, map};
ghost use Rattle.tree_node.specs.Nodes.{Link};
ghost use Rattle.node_pack.specs.Packs.{HasChildren, digests_of};

use osm_keys::read_manifest;
use std::alloc::AllocError;
use tree_node::{Children, Digest, NodeRef};

/// Lists the digests of a node's children, or of the tops of a manifest, in place of what was listed. Other bytes have none.
pub(crate) fn list_children(node: &[u8], children: &mut Vec<Digest>) -> Result<(), AllocError>
    ensures { (digests : List (List ℕ)) → HasChildren node.now digests
        → OnOk result (digests_of children.new.items ≡ digests) }
{
    children.clear();
    if let Some(manifest) = read_manifest(node) {
        let [objects, tags, cells, backs] = manifest.tops;
        return children.extend_from_slice(&[objects, tags, cells, backs]);
    }
    match NodeRef::read(node) {
        Ok(
            NodeRef::Inner {
                tree: _,
                level: _,
                children: links,
            },
        ) => list_links(links, children),
        Ok(
            NodeRef::Leaf {
                tree: _,
                entries: _,
            },
        )
        | Err(_) => Ok(()),
    }
}

/// Lists the digests of these children after those before.
pub(crate) fn list_links(links: Children<'_>, children: &mut Vec<Digest>) -> Result<(), AllocError>
    ensures { OnOk result (digests_of children.new.items
        ≡ digests_of children.old.items ++ map (λ (link : Link). link.child) links.entry) }
{
    for link in links {
        children.push(link.digest)?;
    }
    Ok(())
}
