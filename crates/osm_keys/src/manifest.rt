//! Manifests.

ghost use Rattle.std.specs.Prelude.{◌≡◌, ◌≢◌, ◌++◌, ℕ, IfSome, IsNone, List, OnErr, OnOk, length, take};
ghost use Rattle.osm_keys.specs.Manifests.{HaveWidth, all_tops, edition_bytes, manifest, manifest_bytes, top_among};
ghost use Rattle.osm_keys.specs.declared.edition.Edition.{Edition};
ghost use Rattle.tree_node.specs.declared.tree.Tree.{Tree};

use crate::edition::Edition;
use std::alloc::AllocError;
use tree_node::Digest;

/// How the bytes of a manifest begin.
const MAGIC: &[u8] = b"OSMM";

/// What the root of a set is the digest of: the edition, and the digests of the tops of the four trees
/// in the order of their numbers (this project, docs/FORMATS.md).
#[derive(Clone, Copy, Debug, PartialEq, Eq)]
pub struct Manifest {
    /// The edition.
    pub edition: Edition,
    /// The digests of the tops of the object, tag, cell and back tree.
    pub tops: [Digest; 4],
}

/// Appends the bytes of a manifest: `OSMM`, the number of the edition in one byte, in the second edition
/// its sequence in eight bytes with the greatest first, and the four digests (this project,
/// docs/FORMATS.md). Where memory is refused `out` has its old bytes.
pub fn write_manifest(manifest: &Manifest, out: &mut Vec<u8>) -> Result<(), AllocError>
    ensures written { OnOk result (out.new.items ≡ out.old.items ++ manifest_bytes manifest.now) }
    ensures unchanged { OnErr result (out.new.items ≡ out.old.items) }
{
    let start = out.len();
    let appended = append_manifest(manifest, out);
    if appended.is_err() {
        out.truncate(start);
    }
    appended
}

/// Appends a manifest; out of memory it leaves what it wrote.
#[tactic(auto, unfolding(crate::specs::Manifests::manifest))]
fn append_manifest(manifest: &Manifest, out: &mut Vec<u8>) -> Result<(), AllocError>
    ensures written { OnOk result (out.new.items ≡ out.old.items ++ manifest_bytes manifest.now) }
    ensures extended { OnErr result (take (length out.old.items) out.new.items ≡ out.old.items) }
{
    out.extend_from_slice(MAGIC)?;
    append_edition(manifest.edition, out)?;
    append_tops(&manifest.tops, out)
}

/// Appends the number of an edition and its sequence; out of memory it leaves what it wrote.
fn append_edition(edition: Edition, out: &mut Vec<u8>) -> Result<(), AllocError>
    ensures written { OnOk result (out.new.items ≡ out.old.items ++ edition_bytes edition) }
    ensures extended { OnErr result (take (length out.old.items) out.new.items ≡ out.old.items) }
{
    match edition {
        Edition::One => {
            out.push(1)?;
            Ok(())
        }
        Edition::Two { sequence } => {
            out.push(2)?;
            out.extend_from_slice(&sequence.to_be_bytes())
        }
    }
}

/// Appends four digests; out of memory it leaves what it wrote.
fn append_tops(tops: &[Digest; 4], out: &mut Vec<u8>) -> Result<(), AllocError>
    ensures written { OnOk result (out.new.items ≡ out.old.items ++ all_tops (top_among tops.now)) }
    ensures extended { OnErr result (take (length out.old.items) out.new.items ≡ out.old.items) }
{
    out.extend_from_slice(&tops[0].0)?;
    out.extend_from_slice(&tops[1].0)?;
    out.extend_from_slice(&tops[2].0)?;
    out.extend_from_slice(&tops[3].0)
}

/// The manifest with these bytes: 133 bytes in the first edition, 141 in the second (this project, docs/FORMATS.md).
/// `None` for all other bytes: if they don't begin with `OSMM`, if the next byte is neither 1 nor 2, or if the length isn't
/// that of the edition. It allocates nothing.
pub fn read_manifest(bytes: &[u8]) -> Option<Manifest>
    // What is read has these bytes, and four tops of 32 bytes.
    ensures some { IfSome result (λ found. bytes.now ≡ manifest_bytes found) }
    ensures width { IfSome result (λ found. HaveWidth (top_among found.tops)) }
    // Where nothing is read, the bytes are the manifest of no edition and no four tops.
    ensures none { IsNone result → (edition : Edition) (tops : Tree → List ℕ) → HaveWidth tops
        → bytes.now ≢ manifest edition tops }
{
    let rest = bytes.strip_prefix(MAGIC)?;
    let (edition, rest) = read_edition(rest)?;
    let tops = read_tops(rest)?;
    Some(Manifest { edition, tops })
}

/// The edition at the front of these bytes, and the bytes after it.
fn read_edition(bytes: &[u8]) -> Option<(Edition, &[u8])>
    ensures some { IfSome result (λ found. bytes.now ≡ edition_bytes found.0 ++ found.1.now) }
    ensures none { IsNone result → (edition : Edition) (rest : List ℕ)
        → bytes.now ≢ edition_bytes edition ++ rest }
{
    let (number, rest) = bytes.split_first()?;
    match *number {
        1 => Some((Edition::One, rest)),
        2 => {
            let (sequence, rest) = rest.split_first_chunk()?;
            let sequence = u64::from_be_bytes(*sequence);
            Some((Edition::Two { sequence }, rest))
        }
        _ => None,
    }
}

/// The four digests that these bytes are.
fn read_tops(bytes: &[u8]) -> Option<[Digest; 4]>
    ensures some { IfSome result (λ tops. bytes.now ≡ all_tops (top_among tops)) }
    ensures width { IfSome result (λ tops. HaveWidth (top_among tops)) }
    ensures none { IsNone result → length bytes.now ≢ 128 }
{
    let (objects, rest) = bytes.split_first_chunk()?;
    let (tags, rest) = rest.split_first_chunk()?;
    let (cells, backs) = rest.split_first_chunk()?;
    let backs = backs.as_array()?;
    Some([
        Digest(*objects),
        Digest(*tags),
        Digest(*cells),
        Digest(*backs),
    ])
}
