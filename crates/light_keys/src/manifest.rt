//! The manifest.

ghost use Rattle.std.specs.Prelude.{◌≡◌, ◌≢◌, ◌++◌, ℕ, IfSome, IsNone, List, OnErr, OnOk, length, take};
ghost use Rattle.osm_keys.specs.Manifests.{HaveWidth, all_tops, top_among};
ghost use Rattle.tree_node.specs.declared.tree.Tree.{Tree};
ghost use Rattle.light_keys.specs.LightManifests.{light_manifest, light_manifest_bytes, third_bytes};

use std::alloc::AllocError;
use tree_node::Digest;

/// How the bytes of a manifest begin.
const MAGIC: &[u8] = b"OSMM";

/// What the root of a set is the digest of, where the entries of its trees state digests of lines: a sequence, and the
/// digests of the tops of the four trees in the order of their numbers.
#[derive(Clone, Copy, Debug, PartialEq, Eq)]
pub struct LightManifest {
    /// The number of this root in the publisher's sequence of roots, any `u64`.
    pub sequence: u64,
    /// The digests of the tops of the object, tag, cell and back tree.
    pub tops: [Digest; 4],
}

/// Appends the bytes of a manifest, 141: `OSMM`, the byte 3, the sequence in eight bytes with the greatest first, and the
/// four digests. Where memory is refused `out` has its old bytes.
pub fn append_light_manifest(manifest: &LightManifest, out: &mut Vec<u8>) -> Result<(), AllocError>
    ensures written { OnOk result (out.new.items ≡ out.old.items
        ++ light_manifest_bytes manifest.now) }
    ensures unchanged { OnErr result (out.new.items ≡ out.old.items) }
{
    let start = out.len();
    let appended = append_parts(manifest, out);
    if appended.is_err() {
        out.truncate(start);
    }
    appended
}

/// Appends a manifest; out of memory it leaves what it wrote.
#[tactic(auto, unfolding(crate::specs::LightManifests::light_manifest))]
fn append_parts(manifest: &LightManifest, out: &mut Vec<u8>) -> Result<(), AllocError>
    ensures written { OnOk result (out.new.items ≡ out.old.items
        ++ light_manifest_bytes manifest.now) }
    ensures extended { OnErr result (take (length out.old.items) out.new.items ≡ out.old.items) }
{
    out.extend_from_slice(MAGIC)?;
    append_sequence(manifest.sequence, out)?;
    append_tops(&manifest.tops, out)
}

/// Appends the number 3 and the sequence; out of memory it leaves what it wrote.
#[tactic(auto, unfolding(crate::specs::LightManifests::third_bytes))]
fn append_sequence(sequence: u64, out: &mut Vec<u8>) -> Result<(), AllocError>
    ensures written { OnOk result (out.new.items ≡ out.old.items ++ third_bytes sequence) }
    ensures extended { OnErr result (take (length out.old.items) out.new.items ≡ out.old.items) }
{
    out.push(3)?;
    out.extend_from_slice(&sequence.to_be_bytes())
}

/// Appends four digests; out of memory it leaves what it wrote.
fn append_tops(tops: &[Digest; 4], out: &mut Vec<u8>) -> Result<(), AllocError>
    ensures written { OnOk result (out.new.items ≡ out.old.items ++ all_tops (top_among tops.now)) }
    ensures extended { OnErr result (take (length out.old.items) out.new.items ≡ out.old.items) }
{
    out.extend_from_slice(&tops[0].0)?;
    out.extend_from_slice(&tops[1].0)?;
    out.extend_from_slice(&tops[2].0)?;
    out.extend_from_slice(&tops[3].0)
}

/// The manifest with these bytes, 141. `None` for all other bytes: if they don't begin with `OSMM` and the byte 3, or
/// their length is another. It allocates nothing.
pub fn read_light_manifest(bytes: &[u8]) -> Option<LightManifest>
    // What is read has these bytes, and four tops of 32 bytes.
    ensures some { IfSome result (λ found. bytes.now ≡ light_manifest_bytes found) }
    ensures width { IfSome result (λ found. HaveWidth (top_among found.tops)) }
    // Where nothing is read, the bytes are the manifest of no sequence and no four tops.
    ensures none { IsNone result → (sequence : ℕ) (tops : Tree → List ℕ) → HaveWidth tops
        → bytes.now ≢ light_manifest sequence tops }
{
    let rest = bytes.strip_prefix(MAGIC)?;
    let (sequence, rest) = read_sequence(rest)?;
    let tops = read_tops(rest)?;
    Some(LightManifest { sequence, tops })
}

/// The sequence at the front of these bytes, after the number 3, and the bytes after it.
#[tactic(auto, unfolding(crate::specs::LightManifests::third_bytes))]
fn read_sequence(bytes: &[u8]) -> Option<(u64, &[u8])>
    ensures some { IfSome result (λ found. bytes.now ≡ third_bytes found.0 ++ found.1.now) }
    ensures none { IsNone result → (sequence : ℕ) (rest : List ℕ)
        → bytes.now ≢ third_bytes sequence ++ rest }
{
    let (number, rest) = bytes.split_first()?;
    match *number {
        3 => {
            let (sequence, rest) = rest.split_first_chunk()?;
            let sequence = u64::from_be_bytes(*sequence);
            Some((sequence, rest))
        }
        _ => None,
    }
}

/// The four digests that these bytes are.
fn read_tops(bytes: &[u8]) -> Option<[Digest; 4]>
    ensures some { IfSome result (λ tops. bytes.now ≡ all_tops (top_among tops)) }
    ensures width { IfSome result (λ tops. HaveWidth (top_among tops)) }
    ensures none { IsNone result → length bytes.now ≢ 128 }
{
    let (objects, rest) = bytes.split_first_chunk()?;
    let (tags, rest) = rest.split_first_chunk()?;
    let (cells, backs) = rest.split_first_chunk()?;
    let backs = backs.as_array()?;
    Some([
        Digest(*objects),
        Digest(*tags),
        Digest(*cells),
        Digest(*backs),
    ])
}
