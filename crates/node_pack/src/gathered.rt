//! A node that a pack will have.

ghost use Rattle.std.specs.Prelude.{◌≡◌, ◌<◌, ◌+◌, ◌*◌, ◌-◌, ◌^◌, [], IfErr, IfOk, OnOk, min};
ghost use Rattle.tree_node.specs.Fetches.{ReadsAs};
ghost use Rattle.node_pack.specs.Packs.{HasChildren, digests_of, record_len};
ghost use Rattle.node_pack.specs.Reached.{Fits, HasRole, IsAsWanted, IsUnfit};
ghost use Rattle.node_pack.specs.internal.Gathering.{IsMeasured, IsNewFault, IsRead, IsUnread, kept_of};
ghost use Rattle.node_pack.specs.declared.role.Role.{Role};
ghost use Rattle.node_pack.specs.declared.role.Role.TheVariants as roles;

use crate::children::list_links;
use crate::role::{Role, Wanted};
use crate::write_fault::WriteFault;
use osm_keys::read_manifest;
use std::alloc::Global;
use tree_node::{Digest, Fetched, NewNode, NodeRef};

/// A node that a pack will have. Its bytes are the shelf's.
#[derive(Drop)]
pub struct Gathered<'a> {
    /// The digest of the bytes.
    pub key: Digest,
    pub bytes: &'a [u8],
    /// The digests of the children, in the order in which the node lists them.
    pub children: Vec<Digest>,
    pub role: Role,
    /// How many bytes the record has.
    pub len: u32,
}

/// The node with this digest, which a shelf gave.
///
/// Refused with `Malformed` where it isn't as wanted, with `TooLong` where its record would have 2^32 bytes or more, and where
/// memory is refused.
pub(crate) fn read_wanted<'a>(
    alloc: Global,
    key: Digest,
    node: Fetched<'a>,
    wanted: Wanted,
) -> Result<Gathered<'a>, WriteFault>
    requires { ReadsAs node.bytes.now node.read }
    ensures key { IfOk result (λ gathered. gathered.key ≡ key) }
    ensures bytes { IfOk result (λ gathered. gathered.bytes.now ≡ node.entry.bytes.now) }
    ensures read { IfOk result (λ gathered.
        IsRead node.entry.bytes.now gathered.role (digests_of gathered.children.items)) }
    ensures fits { IfOk result (λ gathered. Fits gathered.role wanted) }
    ensures as_wanted { IfOk result (λ gathered. IsAsWanted wanted node.entry.bytes.now) }
    ensures len { IfOk result (λ gathered. gathered.len ≡ record_len (kept_of gathered)) }
    ensures short { IfOk result (λ gathered. record_len (kept_of gathered) < 2 ^ 32) }
    ensures refused { IfErr result (IsNewFault wanted node.entry.bytes.now) }
{
    let bytes = node.bytes;
    let (role, children) = read_role(alloc, node)?;
    if !role.fits(wanted) {
        return Err(WriteFault::Malformed);
    }
    let len = len_of_record(bytes.len(), children.len());
    if len > u64::from(u32::MAX) {
        return Err(WriteFault::TooLong);
    }
    Ok(Gathered {
        key,
        bytes,
        children,
        role,
        len: len as u32,
    })
}

/// A new node with the digests of its children, whatever it is.
///
/// Refused with `Malformed` where it is neither a node of a tree nor a manifest, with `TooLong` where its record would have 2^32
/// bytes or more, and where memory is refused.
pub(crate) fn read_new(alloc: Global, node: &NewNode) -> Result<Gathered<'_>, WriteFault>
    ensures bytes { IfOk result (λ gathered. gathered.bytes.now ≡ node.now.bytes.items) }
    ensures measured { IfOk result IsMeasured }
    ensures children { IfOk result
        (λ gathered. HasChildren gathered.bytes.now (digests_of gathered.children.items)) }
    ensures short { IfOk result (λ gathered. record_len (kept_of gathered) < 2 ^ 32) }
    ensures refused { IfErr result (IsUnfit node.now.bytes.items) }
{
    let bytes = node.bytes.as_slice();
    let read = NodeRef::read(bytes);
    let (role, children) = read_role(alloc, Fetched { bytes, read })?;
    let len = len_of_record(bytes.len(), children.len());
    if len > u64::from(u32::MAX) {
        return Err(WriteFault::TooLong);
    }
    Ok(Gathered {
        key: node.digest,
        bytes,
        children,
        role,
        len: len as u32,
    })
}

/// How many bytes the record of a node has, or 2^64 - 1 where that would be more.
fn len_of_record(node: usize, children: usize) -> u64
    ensures { result ≡ min (4 + (node + 12 * children)) (2 ^ 64 - 1) }
{
    let table = (children as u64).saturating_mul(12);
    (node as u64).saturating_add(table).saturating_add(4)
}

/// What the node is, and the digests of its children.
///
/// Refused with `Malformed` where it is neither a node of a tree nor a manifest, and where memory is refused.
fn read_role(alloc: Global, node: Fetched<'_>) -> Result<(Role, Vec<Digest>), WriteFault>
    requires { ReadsAs node.bytes.now node.read }
    ensures read { IfOk result
        (λ read. IsRead node.entry.bytes.now read.0 (digests_of read.1.items)) }
    ensures refused { IfErr result
        (IsUnread ((role : Role) → ¬ HasRole node.entry.bytes.now role)) }
{
    let mut children = Vec::new(alloc);
    match node.read {
        Ok(
            NodeRef::Inner {
                tree,
                level,
                children: links,
            },
        ) => {
            list_links(links, &mut children)?;
            Ok((Role::Node { tree, level }, children))
        }
        Ok(NodeRef::Leaf { tree, entries: _ }) => Ok((Role::Node { tree, level: 0 }, children)),
        Err(_) => {
            list_tops(node.bytes, &mut children)?;
            Ok((Role::Manifest, children))
        }
    }
}

/// Lists the tops of a manifest after the digests before.
///
/// Refused with `Malformed` where the bytes are no manifest, and where memory is refused.
fn list_tops(bytes: &[u8], children: &mut Vec<Digest>) -> Result<(), WriteFault>
    ensures read { children.old.items ≡ []
        → OnOk result (IsRead bytes.now roles.Manifest (digests_of children.new.items)) }
    ensures refused { IfErr result (IsUnread (¬ HasRole bytes.now roles.Manifest)) }
{
    let Some(manifest) = read_manifest(bytes) else {
        return Err(WriteFault::Malformed);
    };
    let [objects, tags, cells, backs] = manifest.tops;
    children.extend_from_slice(&[objects, tags, cells, backs])?;
    Ok(())
}
