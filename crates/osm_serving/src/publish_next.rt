//! Publishing the next change file.

ghost use Rattle.std.specs.Prelude.{◌≡◌, ◌∷◌, IfSome, MatchResult, OnErr, Some};
ghost use Rattle.osm_keys.specs.Publications.{Publication};
ghost use Rattle.osm_index.specs.Snapshots.{HoldsPublication, IsAsBefore};
ghost use Rattle.osm_serving.specs.ChangeFiles.{ExplainsFound, HasPublishedUnder, IsNext, asked_after};
ghost use Rattle.osm_desk.specs.Published.{FoundFile, HasTaken, TakesFound};

use crate::change_source::ChangeSource;
use crate::changes_fault::ChangesFault;
use crate::changes_publisher::publish_changes;
use crate::root_line::RootLine;
use osm_desk::Desk;
use osm_index::{Edition, Snapshot};
use std::alloc::Global;
use std::io::Write;

/// Publishes the next change file, as `publish_found` does. A file that is refused is told in one line of `errors`.
pub(crate) fn publish_next<C: ChangeSource, E: Write>(
    alloc: Global,
    desk: &mut Desk<Snapshot>,
    source: &mut C,
    root_line: RootLine,
    errors: &mut E,
)
    ensures asked { IfSome (C.asked source.old) (λ before.
        C.asked source.new ≡ Some (asked_after desk.old.mirror.edition before)) }
    // What is in force is as before, or what changes that a file holds make of it:
    ensures in_force { (p : Publication) → HoldsPublication desk.old.mirror p
        → HasPublishedUnder root_line p desk.new.mirror }
    // those of the file that the source gave.
    ensures found { TakesFound (C.found source.old) (C.found source.new)
        (HoldsPublication desk.old.mirror) (HoldsPublication desk.new.mirror) }
    ensures connections { desk.new.connections ≡ desk.old.connections }
{
    if let Err(fault) = publish_found(alloc, desk, source, root_line) {
        // Where the line can't be written, connections are served all the same.
        let _ = writeln!(errors, "{fault}");
    }
}

/// Asks the source once for the change file of the next sequence number, and publishes the changes where it is there, and
/// has a root line where one is required. A file that is refused changes nothing. Where the sequence is at its greatest, and
/// in the first edition, which has none, the source isn't asked.
pub(crate) fn publish_found<C: ChangeSource>(
    alloc: Global,
    desk: &mut Desk<Snapshot>,
    source: &mut C,
    root_line: RootLine,
) -> Result<(), ChangesFault>
    ensures asked { IfSome (C.asked source.old) (λ before.
        C.asked source.new ≡ Some (asked_after desk.old.mirror.edition before)) }
    ensures in_force { (p : Publication) → HoldsPublication desk.old.mirror p
        → HasPublishedUnder root_line p desk.new.mirror }
    ensures found { TakesFound (C.found source.old) (C.found source.new)
        (HoldsPublication desk.old.mirror) (HoldsPublication desk.new.mirror) }
    ensures connections { desk.new.connections ≡ desk.old.connections }
{
    let Some(sequence) = next_sequence(desk.snapshot().edition()) else {
        return Ok(());
    };
    publish_file(alloc, desk, source, sequence, root_line)
}

/// Publishes the changes of the file with this sequence number, where it is there.
fn publish_file<C: ChangeSource>(
    alloc: Global,
    desk: &mut Desk<Snapshot>,
    source: &mut C,
    sequence: u64,
    root_line: RootLine,
) -> Result<(), ChangesFault>
    ensures asked { IfSome (C.asked source.old) (λ before.
        C.asked source.new ≡ Some (sequence ∷ before)) }
    ensures in_force { (p : Publication) → HoldsPublication desk.old.mirror p
        → HasPublishedUnder root_line p desk.new.mirror }
    // The changes of the file that the source gave are published, where it gave one, or it is told why not.
    ensures found { IfSome (C.found source.old) (λ before. (found : FoundFile)
        × (C.found source.new ≡ Some (found ∷ before))
        × ((p : Publication) → HoldsPublication desk.old.mirror p
        → MatchResult result (λ _. HasTaken found p desk.new.mirror) (ExplainsFound root_line found p))) }
    ensures unchanged { OnErr result (IsAsBefore desk.old.mirror desk.new.mirror) }
    ensures connections { desk.new.connections ≡ desk.old.connections }
{
    let Some(mut file) = source.change_file(sequence)? else {
        return Ok(());
    };
    publish_changes(alloc, desk, &mut file, root_line)
}

/// The sequence number after that of the edition; none where it is at its greatest, and after the first edition.
fn next_sequence(edition: Edition) -> Option<u64>
    ensures { IsNext edition result }
{
    match edition {
        Edition::One => None,
        Edition::Two { sequence } => sequence.checked_add(1),
    }
}
