//! The front of a pack: the header, and the manifest.

ghost use Rattle.std.specs.Prelude.{◌≡◌, ◌++◌, ◌+◌, ◌≤◌, IfOk, OnOk, length};
ghost use Rattle.std.specs.Int.{to_be_bytes, w32};
ghost use Rattle.node_pack.specs.Headers.{header_bytes};
ghost use Rattle.pack_assembly.specs.internal.Front.{front_bytes, header_with};

use std::alloc::{AllocError, Global};
use tree_node::Digest;

/// How many bytes a header has.
pub(crate) const HEADER_LEN: u64 = 60;

/// `OSMK`, as a number of four bytes.
const MAGIC: u32 = 0x4f53_4d4b;

/// The version 1 in two bytes, and two bytes that are zero, as a number of four bytes.
const VERSION: u32 = 0x0001_0000;

/// The length of the manifest's record: four bytes, the manifest, twelve bytes for each of four tops.
pub(crate) fn manifest_record_len(manifest: &[u8]) -> u32
    ensures { length manifest.now ≤ 141 → result ≡ 4 + (length manifest.now + 48) }
{
    (manifest.len().min(141) + 52) as u32
}

/// The header of a pack of this root and size, and the manifest after its length, which are the front of its record.
pub(crate) fn front_of(
    alloc: Global,
    root: &Digest,
    size: u64,
    manifest: &[u8],
) -> Result<Vec<u8>, AllocError>
    ensures { length manifest.now ≤ 141
        → IfOk result (λ front. front.items ≡ front_bytes root.now size manifest.now) }
{
    let mut front = Vec::new(alloc);
    append_header(root, size, manifest_record_len(manifest), &mut front)?;
    append_manifest(manifest, &mut front)?;
    Ok(front)
}

/// Appends the length of the manifest, and the manifest.
fn append_manifest(manifest: &[u8], out: &mut Vec<u8>) -> Result<(), AllocError>
    ensures { length manifest.now ≤ 141 → OnOk result (out.new.items
        ≡ out.old.items ++ (to_be_bytes w32 (length manifest.now) ++ manifest.now)) }
{
    out.extend_from_slice(&(manifest.len().min(141) as u32).to_be_bytes())?;
    out.extend_from_slice(manifest)
}

/// Appends the header. The record of the manifest is the first.
fn append_header(
    root: &Digest,
    size: u64,
    manifest_len: u32,
    out: &mut Vec<u8>,
) -> Result<(), AllocError>
    ensures { OnOk result
        (out.new.items ≡ out.old.items ++ header_bytes (header_with root.now size manifest_len)) }
{
    out.extend_from_slice(&MAGIC.to_be_bytes())?;
    out.extend_from_slice(&VERSION.to_be_bytes())?;
    out.extend_from_slice(&root.0)?;
    out.extend_from_slice(&size.to_be_bytes())?;
    out.extend_from_slice(&HEADER_LEN.to_be_bytes())?;
    out.extend_from_slice(&manifest_len.to_be_bytes())
}
