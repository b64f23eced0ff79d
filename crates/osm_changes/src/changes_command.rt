//! The command `changes FILE SEQUENCE CHANGEFILE`.

ghost use Rattle.std.specs.Prelude.{◌≡◌, ◌≢◌, ◌⊎◌, IfErr, IfOk, IfSome, List, ℕ, OnOk, string_bytes, true};
ghost use Rattle.std.specs.Io.KnownBytes.{Appends, Keeps};
ghost use Rattle.osm_model.specs.Elements.{Element};
ghost use Rattle.opl_codec.specs.Files.{HoldsChanges, HoldsSet};
ghost use Rattle.opl_codec.specs.declared.change.Change.{Change as ChangeWord};
ghost use Rattle.osm_keys.specs.Publications.{Publication};
ghost use Rattle.osm_keys.specs.declared.edition.Edition.TheVariants.{Two};
ghost use Rattle.osm_index.specs.Snapshots.{HoldsPublication};
ghost use Rattle.osm_commands.specs.Ask.{HoldsTrees};
ghost use Rattle.osm_changes.specs.AnnouncedChanges.{AppendBoth, ExplainsChanging, HasRootLine, IsBegunChanging, IsGivenBy, IsOutsideChanging, IsWritten};
ghost use Rattle.osm_commands.specs.Files.{IfBoth};
ghost use Rattle.osm_commands.specs.TreeRoots.{publication_line};
ghost use Rattle.osm_changes.specs.internal.Announcing.{ExplainsUnmade, IsOutsideUnmade};

use crate::root_line_end::with_root_line;
use opl_codec::read_change_file;
use osm_commands::{
    CommandFault, FlushingWriter, ReplacingWriter, read_snapshot, read_whole, root_line,
    write_whole,
};
use osm_desk::Desk;
use osm_index::{BuildProgress, Edition, Snapshot};
use std::alloc::Global;
use std::io::Read;

/// Reads the input as the OPL text of a set of objects, in edition 2 with this sequence number, then the change file, and
/// writes the change file anew: its text byte for byte, a line feed where it lacks one at its end, and the line `# root HEX`
/// with the root of the changed set at the next sequence number. Where the file ends with a line that begins with `# root `,
/// that line and the empty lines after it are left out first. Once the text is written and in its place, the root is written
/// to the output as `publish` writes it. Both files may be one: the change file is read whole before anything is written.
///
/// # Errors
///
/// The input is looked at first, then its trees, then the change file, then what its changes make. `Opl` where the input
/// holds no set of objects, `TooMany` where a tree of the set would have more than 2^29 entries, else `Clash` where two
/// different nodes of the trees have one digest; `Endless` where the change file was read 2^32 times without an end, `Opl`
/// where it holds no changes, `Apply` where they can't be made of the set: by I5, I3, I2, I4 or I1, the first of these that
/// holds. `Memory` where an allocation was refused; `Device` where a read failed, a write failed or took nothing, or the text
/// can't be put in its place. Nothing is written then, but where a writer failed the texts before it and a beginning of its
/// own; and nothing is put in its place, but where the output failed.
///
/// Clauses that speak of the readers' bytes do so where they tell them.
pub fn changes<R: Read, C: Read, B: BuildProgress, F: ReplacingWriter, W: FlushingWriter>(
    alloc: Global,
    input: &mut R,
    sequence: u64,
    change_file: &mut C,
    progress: &mut B,
    announced: &mut F,
    output: &mut W,
) -> Result<(), CommandFault>
    // The writers have gained exactly the change file with its root line, and the root's line.
    ensures written { OnOk result (IfBoth (R.remaining input.old) (C.remaining change_file.old)
        (λ file text. (q : Publication) × (written : List ℕ)
        × IsWritten file sequence text q written
        × Appends (F.contents announced.old) (F.contents announced.new) written
        × Appends (W.contents output.old) (W.contents output.new) (publication_line q))) }
    // Nothing is held back then, and the change file is in its place.
    ensures placed { OnOk result ((F.is_flushed announced.new ≡ true)
        × (F.is_in_place announced.new ≡ true)
        × (W.is_flushed output.new ≡ true)) }
    // Changes of a set are written, unless they are refused, memory or a device fails, or the trees can't be made.
    ensures only { IfBoth (R.remaining input.old) (C.remaining change_file.old)
        (λ file text. (set : List Element) → HoldsSet file set
        → (all : List ChangeWord) → HoldsChanges text all
        → IfErr result (IsOutsideChanging file set sequence all)) }
    // Which fault it is.
    ensures refused { IfBoth (R.remaining input.old) (C.remaining change_file.old)
        (λ file text. IfErr result
        (ExplainsChanging file (R.remaining input.new) sequence text)) }
    // The change file is read only after the input, and where its trees are made.
    ensures later { (change_file.new ≡ change_file.old) ⊎ IfSome (R.remaining input.old)
        (λ file. HoldsTrees file (Two sequence)) }
    // Nothing is written or put in its place but where a device fails,
    ensures nothing { IfErr result (λ fault. fault ≢ CommandFault.Device
        → (announced.new ≡ announced.old) × (output.new ≡ output.old)) }
    // the root isn't told before the change file is in its place,
    ensures in_order { Keeps (W.contents output.old) (W.contents output.new)
        ⊎ ((F.is_flushed announced.new ≡ true) × (F.is_in_place announced.new ≡ true)) }
    // and never anything but the two texts in their order: after one that lacks its end nothing.
    ensures begun { IfBoth (R.remaining input.old) (C.remaining change_file.old)
        (λ file text. IsBegunChanging file sequence text
        (record { before = F.contents announced.old; after = F.contents announced.new })
        (record { before = W.contents output.old; after = W.contents output.new })) }
{
    let snapshot = read_snapshot(alloc, input, Edition::Two { sequence }, progress)?;
    let text = read_whole(alloc, change_file)?;
    let made = announce(alloc, snapshot, text)?;
    write_in_turn(announced, &made.text, output, made.line.as_bytes())
}

/// A change file that says which root it gives.
#[derive(Drop)]
struct AnnouncedChanges {
    /// Its text.
    text: Vec<u8>,
    /// The line of the root.
    line: String,
}

/// The text of a change file with the root line of what its changes make of the snapshot.
fn announce(
    alloc: Global,
    snapshot: Snapshot,
    text: Vec<u8>,
) -> Result<AnnouncedChanges, CommandFault>
    ensures made { (p : Publication) → HoldsPublication snapshot p
        → IfOk result (λ made. (q : Publication) × IsGivenBy text.items p q
        × HasRootLine text.items (publication_line q) made.text.items
        × (string_bytes made.line ≡ publication_line q)) }
    ensures only { (p : Publication) → HoldsPublication snapshot p
        → (all : List ChangeWord) → HoldsChanges text.items all
        → IfErr result (IsOutsideUnmade p all) }
    ensures refused { (p : Publication) → HoldsPublication snapshot p
        → IfErr result (ExplainsUnmade text.items p) }
{
    let mut reader = text.as_slice();
    let read = read_change_file(alloc, &mut reader)?;
    let mut desk = Desk::new(alloc, snapshot);
    desk.publish(&read.changes)?;
    let line = root_line(alloc, desk.snapshot().root())?;
    let text = with_root_line(text, line.as_bytes())?;
    Ok(AnnouncedChanges { text, line })
}

/// Writes a text and puts it in its place, and then writes a line to the output.
fn write_in_turn<F: ReplacingWriter, W: FlushingWriter>(
    announced: &mut F,
    text: &[u8],
    output: &mut W,
    line: &[u8],
) -> Result<(), CommandFault>
    ensures whole { OnOk result
        (Appends (F.contents announced.old) (F.contents announced.new) text.now
        × Appends (W.contents output.old) (W.contents output.new) line.now) }
    ensures placed { OnOk result ((F.is_flushed announced.new ≡ true)
        × (F.is_in_place announced.new ≡ true)
        × (W.is_flushed output.new ≡ true)) }
    ensures in_order { Keeps (W.contents output.old) (W.contents output.new)
        ⊎ ((F.is_flushed announced.new ≡ true) × (F.is_in_place announced.new ≡ true)) }
    ensures begun { AppendBoth
        (record {
          text = text.now;
          output = record { before = F.contents announced.old; after = F.contents announced.new };
        })
        (record {
          text = line.now;
          output = record { before = W.contents output.old; after = W.contents output.new };
        }) }
    ensures device { IfErr result (λ fault. fault ≡ CommandFault.Device) }
{
    write_whole(announced, text)?;
    announced.put_in_place()?;
    write_whole(output, line)
}
