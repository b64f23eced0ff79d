//! A lookout for the change files of a source.

ghost use Rattle.std.specs.Prelude.{◌≡◌};
ghost use Rattle.osm_keys.specs.Publications.{Publication};
ghost use Rattle.osm_index.specs.Snapshots.{HoldsPublication};
ghost use Rattle.osm_desk.specs.Published.{HasPublished, TakesFound};
ghost use Rattle.osm_serving.specs.ChangeFiles.{HasPublishedUnder};

use crate::change_source::ChangeSource;
use crate::changes_fault::ChangesFault;
use crate::publish_next::publish_found;
use crate::root_line::RootLine;
use osm_desk::{Desk, Lookout};
use osm_index::Snapshot;
use std::alloc::Global;
use std::io::Write;
use std::marker::Model;

/// Looks for the change file of the next sequence number in a source. Contracts see it as the source, and whether each file has
/// to say which root it gives.
#[derive(Drop)]
pub struct ChangeLookout<C> {
    alloc: Global,
    source: C,
    root_line: RootLine,
    /// Why the last file was refused, if it was.
    told: Option<ChangesFault>,
}

impl<C> Model for ChangeLookout<C> {
    ghost use Rattle.osm_serving.specs.ChangeSources.{Watch};

    ghost Value = { Watch C };

    ghost view = { λ s. record { source = s.source; root_line = s.root_line } };
}

impl<C: ChangeSource> ChangeLookout<C> {
    /// Nothing was looked for yet. A file may say which root it gives.
    pub fn new(alloc: Global, source: C) -> ChangeLookout<C>
        ensures { result ≡ record { source = source; root_line = RootLine.Optional } }
    {
        ChangeLookout {
            alloc,
            source,
            root_line: RootLine::Optional,
            told: None,
        }
    }

    /// Nothing was looked for yet. Each file has to say which root it gives: one that doesn't end with the line `# root HEX`
    /// is refused as one that gives another root (I6).
    pub fn strict(alloc: Global, source: C) -> ChangeLookout<C>
        ensures { result ≡ record { source = source; root_line = RootLine.Required } }
    {
        ChangeLookout {
            alloc,
            source,
            root_line: RootLine::Required,
            told: None,
        }
    }
}

impl<C: ChangeSource> Lookout<Snapshot> for ChangeLookout<C> {
    ghost found = { λ s. C.found s.source };

    /// Asks the source once for the change file of the next sequence number, and publishes its changes where it is there.
    /// A file that is refused changes nothing, and is told in one line of `errors`, but once as long as it is refused for
    /// the same reason each time. The source is told of a file that is refused for what it says. Where the sequence is at its
    /// greatest, and in the first edition, which has none, the source isn't asked.
    fn look<E: Write>(&mut self, desk: &mut Desk<Snapshot>, errors: &mut E)
        ensures in_force { (p : Publication) → HoldsPublication desk.old.mirror p
            → HasPublished p (HoldsPublication desk.new.mirror) }
        // What is in force then has the root that the file announces, and where it has to announce one, it does.
        ensures root_line { (p : Publication) → HoldsPublication desk.old.mirror p
            → HasPublishedUnder self.old.root_line p desk.new.mirror }
        ensures found { TakesFound (C.found self.old.source) (C.found self.new.source)
            (HoldsPublication desk.old.mirror) (HoldsPublication desk.new.mirror) }
        ensures connections { desk.new.connections ≡ desk.old.connections }
        ensures kept { self.new.root_line ≡ self.old.root_line }
    {
        let refusal = publish_found(self.alloc, desk, &mut self.source, self.root_line).err();
        if let Some(
            ChangesFault::Opl(_) | ChangesFault::Apply(_) | ChangesFault::OtherRoot,
        ) = refusal
        {
            self.source.note_refused();
        }
        if refusal == self.told {
            return;
        }
        self.told = refusal;
        if let Some(fault) = refusal {
            // Where the line can't be written, connections are served all the same.
            let _ = writeln!(errors, "{fault}");
        }
    }
}
