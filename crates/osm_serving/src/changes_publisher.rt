//! Publishing the changes of a file.

ghost use Rattle.std.specs.Prelude.{◌≡◌, IfErr, IfSome, List, MatchOption, MatchResult, Ok, OnErr, OnOk};
ghost use Rattle.opl_codec.specs.Files.{HoldsChanges};
ghost use Rattle.opl_codec.specs.declared.change.Change.{Change as ChangeWord};
ghost use Rattle.osm_keys.specs.Publications.{Publication};
ghost use Rattle.osm_index.specs.Snapshots.{HoldsPublication, IsAsBefore};
ghost use Rattle.osm_desk.specs.Made.{IsMade};
ghost use Rattle.osm_serving.specs.ChangeFiles.{ExplainsChanges, HasMade, HasMadeOf, IsOutsideOrRefused};
ghost use Rattle.osm_serving.specs.internal.ReadChanges.{IsHeldTo, IsHeldToNone, IsNoRootComment, IsRootComment, KeepsComment, RefusesRead, comment_of};

use crate::changes_fault::ChangesFault;
use crate::root_line::RootLine;
use opl_codec::{ChangeFile, read_change_file};
use osm_desk::Desk;
use osm_index::Snapshot;
use std::alloc::Global;
use std::io::Read;

/// Reads the file as changes, and publishes them at the desk: in force afterwards is the changed set at the next
/// sequence.
///
/// Where the file's last line that isn't empty is a comment that begins with `# root `, what follows is the root that the
/// file announces, and the changes are published only if that is, byte for byte, the 64 hexadecimal digits in lower case of
/// the root that they give. So a line that is damaged, in whatever way, is never passed over: what isn't such digits is no
/// root's. Where a root line is required, a file without one is refused as one with another root.
///
/// # Errors
///
/// `Opl` where the file holds no changes, or was read 2^32 times without an end. `Apply` where its changes can't be made
/// of what is in force: by I5, I3, I2 or I4, the first of these that holds; else `OtherRoot` (I6) where the file announces
/// another root than they give, or none though it has to; else `Apply` by I1. `Device` where a read failed, `Memory`
/// where an allocation was refused. After a refusal what was in force stays, and the file is left where reading stopped.
///
/// Clauses that speak of the file's bytes do so where the reader tells them.
pub fn publish_changes<R: Read>(
    alloc: Global,
    desk: &mut Desk<Snapshot>,
    file: &mut R,
    root_line: RootLine,
) -> Result<(), ChangesFault>
    // In force is what the changes that the file holds make of what was, with the root that the file announces.
    ensures published { (p : Publication) → HoldsPublication desk.old.mirror p
        → OnOk result (HasMade root_line (R.remaining file.old) p desk.new.mirror) }
    // Changes that a file holds are published, unless they are refused or give another root, or memory or a device fails.
    ensures only { (p : Publication) → HoldsPublication desk.old.mirror p
        → IfSome (R.remaining file.old) (λ text. (changes : List ChangeWord)
        → HoldsChanges text changes
        → MatchResult result (λ _. HasMadeOf root_line text changes p desk.new.mirror)
        (IsOutsideOrRefused root_line text p changes)) }
    // Which fault it is.
    ensures refused { (p : Publication) → HoldsPublication desk.old.mirror p
        → IfErr result
        (ExplainsChanges root_line (R.remaining file.old) (R.remaining file.new) p) }
    // A refusal changes nothing in force,
    ensures unchanged { OnErr result (IsAsBefore desk.old.mirror desk.new.mirror) }
    // and connections stay, whatever happens.
    ensures connections { desk.new.connections ≡ desk.old.connections }
{
    let read = read_change_file(alloc, file)?;
    publish_read(desk, &read, root_line)
}

/// Publishes the changes that were read of a file, where they give the root that it announces.
fn publish_read(
    desk: &mut Desk<Snapshot>,
    read: &ChangeFile,
    root_line: RootLine,
) -> Result<(), ChangesFault>
    ensures made { (p : Publication) → HoldsPublication desk.old.mirror p
        → OnOk result ((q : Publication) × HoldsPublication desk.new.mirror q
        × IsMade p read.now.changes.items (Ok q) × KeepsComment root_line (comment_of read.now) q) }
    ensures refused { (p : Publication) → HoldsPublication desk.old.mirror p
        → IfErr result (RefusesRead root_line read.now p) }
    ensures unchanged { OnErr result (IsAsBefore desk.old.mirror desk.new.mirror) }
    ensures connections { desk.new.connections ≡ desk.old.connections }
{
    match root_to_give(read, root_line) {
        Some(announced) => desk.publish_announced(&read.changes, announced)?,
        None => desk.publish(&read.changes)?,
    }
    Ok(())
}

/// What the digits of the root have to be that the changes of a file give, if they have to give a certain one: what the
/// file announces, or nothing, which no root's digits are, where it has to announce one and doesn't.
fn root_to_give(read: &ChangeFile, root_line: RootLine) -> Option<&[u8]>
    ensures { MatchOption result (IsHeldToNone root_line (comment_of read.now))
        (λ announced. IsHeldTo root_line (comment_of read.now) announced.now) }
{
    match announced_root(read) {
        Some(announced) => Some(announced),
        None => match root_line {
            RootLine::Required => Some(b"".as_slice()),
            RootLine::Optional => None,
        },
    }
}

/// What the comment at the end of a file announces as the root.
fn announced_root(read: &ChangeFile) -> Option<&[u8]>
    ensures { MatchOption result (IsNoRootComment (comment_of read.now))
        (λ announced. IsRootComment (comment_of read.now) announced.now) }
{
    match &read.end_comment {
        Some(comment) => comment.strip_prefix(b"# root "),
        None => None,
    }
}
