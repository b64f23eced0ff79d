//! What a line says.

ghost use Rattle.std.specs.Fmt.{decimal};
ghost use Rattle.std.specs.Prelude.{◌≡◌, ◌≢◌, ◌↔◌, ◌<◌, ◌≤◌, ◌++◌, ◌∷◌, ◌^◌, ℕ, IsTrue, List, MatchOption};
ghost use Rattle.pack_head.specs.Heads.{IsHeadFile, IsRoot, file_line, manifest_line, root_line, sequence_line, space};
ghost use Rattle.pack_head.specs.Lines.{IsFileLine, IsManifestLine, IsRootLine, IsSequenceLine};
ghost use Rattle.pack_head.specs.Names.{IsHeadName};
ghost use Rattle.pack_head.specs.declared.limits.TheConstants.{FILES_LIMIT, FILE_LEN_LIMIT};

use crate::digits::{read_number, read_root, read_short};
use crate::head::HeadFile;
use crate::limits::{FILE_LEN_LIMIT, FILES_LIMIT};
use crate::name::is_head_name;
use byte_io::split_once;
use tree_node::Digest;

/// Where a manifest's record stands, and how many bytes it has.
#[derive(Clone, Copy)]
pub(crate) struct ManifestPlace {
    pub(crate) at: u64,
    pub(crate) len: u32,
}

/// The root that a line names.
pub(crate) fn root_in(line: &[u8]) -> Option<Digest>
    ensures { MatchOption result (¬ (IsRootLine line.now)) (λ root. (line.now ≡ root_line root.0)
        × IsRoot root.0) }
{
    read_root(line.strip_prefix(b"root ")?)
}

/// The sequence number that a line states.
pub(crate) fn sequence_in(line: &[u8]) -> Option<u64>
    ensures { MatchOption result (¬ (IsSequenceLine line.now))
        (λ sequence. (line.now ≡ sequence_line sequence) × (sequence < 2 ^ 64)) }
{
    read_number(line.strip_prefix(b"sequence ")?)
}

/// Where the manifest stands, by its line.
pub(crate) fn manifest_in(line: &[u8]) -> Option<ManifestPlace>
    ensures { MatchOption result (¬ (IsManifestLine line.now))
        (λ place. (line.now ≡ manifest_line place.at place.len) × (place.at < 2 ^ 64)
        × (place.len < 2 ^ 32)) }
{
    let (at, len) = split_number(line.strip_prefix(b"manifest ")?)?;
    let len = read_short(len)?;
    Some(ManifestPlace { at, len })
}

/// The file with this number, from 0, that a line names.
pub(crate) fn file_in(line: &[u8], number: usize) -> Option<HeadFile<'_>>
    ensures { MatchOption result (¬ (IsFileLine number line.now)) (λ file. (line.now ≡ file_line file)
        × IsHeadFile file × (number < FILES_LIMIT)) }
{
    let (len, name) = split_number(line.strip_prefix(b"file ")?)?;
    if fits(number, len, name) {
        Some(HeadFile { len, name })
    } else {
        None
    }
}

/// Whether a head can name a file so.
fn fits(number: usize, len: u64, name: &[u8]) -> bool
    ensures { IsTrue result ↔ ((number < FILES_LIMIT) × (len ≤ FILE_LEN_LIMIT)
        × IsHeadName name.now) }
{
    number < FILES_LIMIT && len <= FILE_LEN_LIMIT && is_head_name(name)
}

/// The number before the first space, and what comes after it.
fn split_number(text: &[u8]) -> Option<(u64, &[u8])>
    ensures { MatchOption result ((number : ℕ) (rest : List ℕ) → number < 2 ^ 64
        → text.now ≢ decimal number ++ space ∷ rest)
        (λ found. (text.now ≡ decimal found.0 ++ space ∷ found.1.now) × (found.0 < 2 ^ 64)) }
{
    let (number, rest) = split_once(text, b' ')?;
    let number = read_number(number)?;
    Some((number, rest))
}
