//! The first four lines of a head.

ghost use Rattle.std.specs.Prelude.{◌≡◌, ◌∷◌, ◌<◌, ◌^◌, IfErr, IfOk};
ghost use Rattle.pack_head.specs.Heads.{IsRoot, manifest_line, root_line, sequence_line, version_line};
ghost use Rattle.pack_head.specs.Lines.{IsFault};
ghost use Rattle.pack_head.specs.internal.Fronts.{IsFront};
ghost use Rattle.pack_head.specs.internal.Left.{lines_in};

use crate::fault::HeadFault;
use crate::line::{ManifestPlace, manifest_in, root_in, sequence_in};
use crate::lines::Lines;
use tree_node::Digest;

/// The first line of a head.
pub(crate) const VERSION: &[u8] = b"osm_mirror head 1";

/// What the first four lines say.
#[derive(Clone, Copy)]
pub(crate) struct Front {
    pub(crate) root: Digest,
    pub(crate) sequence: u64,
    pub(crate) manifest: ManifestPlace,
}

/// Takes the first four lines of all.
pub(crate) fn read_front(lines: &mut Lines<'_>) -> Result<Front, HeadFault>
    ensures read { IfOk result (λ front. lines_in lines.old ≡ version_line ∷ root_line front.root.0
        ∷ sequence_line front.sequence ∷ manifest_line front.manifest.at front.manifest.len ∷ lines_in lines.new) }
    ensures right { IfOk result IsFront }
    ensures refused { IfErr result (IsFault 0 (lines_in lines.old)) }
{
    read_version(lines)?;
    Ok(Front {
        root: read_root(lines)?,
        sequence: read_sequence(lines)?,
        manifest: read_manifest(lines)?,
    })
}

/// Takes the first line.
fn read_version(lines: &mut Lines<'_>) -> Result<(), HeadFault>
    ensures read { IfOk result (λ _. lines_in lines.old ≡ version_line ∷ lines_in lines.new) }
    ensures refused { IfErr result (IsFault 0 (lines_in lines.old)) }
{
    if lines.take_line() == Some(VERSION) {
        Ok(())
    } else {
        Err(HeadFault::Line(1))
    }
}

/// Takes the line of the root.
fn read_root(lines: &mut Lines<'_>) -> Result<Digest, HeadFault>
    ensures read { IfOk result (λ root. lines_in lines.old ≡ root_line root.0 ∷ lines_in lines.new) }
    ensures right { IfOk result (λ root. IsRoot root.0) }
    ensures refused { IfErr result (IsFault 1 (lines_in lines.old)) }
{
    match lines.take_line() {
        Some(line) => root_in(line).ok_or(HeadFault::Line(2)),
        None => Err(HeadFault::Line(2)),
    }
}

/// Takes the line of the sequence number.
fn read_sequence(lines: &mut Lines<'_>) -> Result<u64, HeadFault>
    ensures read { IfOk result (λ sequence. lines_in lines.old ≡ sequence_line sequence
        ∷ lines_in lines.new) }
    ensures right { IfOk result (λ sequence. sequence < 2 ^ 64) }
    ensures refused { IfErr result (IsFault 2 (lines_in lines.old)) }
{
    match lines.take_line() {
        Some(line) => sequence_in(line).ok_or(HeadFault::Line(3)),
        None => Err(HeadFault::Line(3)),
    }
}

/// Takes the line of the manifest.
fn read_manifest(lines: &mut Lines<'_>) -> Result<ManifestPlace, HeadFault>
    ensures read { IfOk result (λ place. lines_in lines.old ≡ manifest_line place.at place.len
        ∷ lines_in lines.new) }
    ensures right { IfOk result (λ place. (place.at < 2 ^ 64) × (place.len < 2 ^ 32)) }
    ensures refused { IfErr result (IsFault 3 (lines_in lines.old)) }
{
    match lines.take_line() {
        Some(line) => manifest_in(line).ok_or(HeadFault::Line(4)),
        None => Err(HeadFault::Line(4)),
    }
}
