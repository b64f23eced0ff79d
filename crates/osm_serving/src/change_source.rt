//! Where change files come from.

ghost use Rattle.std.specs.Prelude.{◌≡◌, ◌⊎◌, ◌∷◌, ℕ, IfErr, IfSome, List, Option, Some};
ghost use Rattle.osm_serving.specs.ChangeSources.{found_in};
ghost use Rattle.osm_desk.specs.Published.{FoundFile};

use osm_commands::CommandFault;
use std::io::Read;

/// Gives the change file of a sequence number, where there is one.
pub trait ChangeSource {
    /// What a change file is read from.
    type Reader: Read + Drop;

    /// The sequence numbers that it was asked for, the last one first, where it tells.
    ghost asked: { Self → Option (List ℕ) };

    /// What it said to each question, the last one first, where it tells.
    ghost found: { Self → Option (List FoundFile) };

    /// The change file that makes the publication with this sequence number; none where there is no such file.
    /// Refused with `Device` where the file can't be opened, with `Memory` where memory runs out.
    fn change_file(&mut self, sequence: u64) -> Result<Option<Self::Reader>, CommandFault>
        ensures asks { IfSome (asked self.old) (λ before.
            asked self.new ≡ Some (sequence ∷ before)) }
        ensures finds { IfSome (found self.old) (λ before.
            found self.new ≡ Some (found_in Self.Reader.remaining result ∷ before)) }
        ensures outside { IfErr result (λ fault. (fault ≡ CommandFault.Memory)
            ⊎ (fault ≡ CommandFault.Device)) };

    /// Notes that the file which it gave last was refused for what it says: as long as that file stays as it is, it doesn't
    /// have to be given again.
    fn note_refused(&mut self)
        ensures asked { asked self.new ≡ asked self.old }
        ensures found { found self.new ≡ found self.old };
}
