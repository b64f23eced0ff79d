//! Changes that are published meanwhile.

ghost use Rattle.std.specs.Prelude.{◌≡◌, List, Option};
ghost use Rattle.osm_keys.specs.Publications.{Publication};
ghost use Rattle.osm_desk.specs.Published.{FoundFile, HasPublished, TakesFound};

use crate::desk::Desk;
use osm_gate::Mirror;
use std::io::Write;

/// Looks for changes, and publishes what it finds, at desks over mirrors of this kind.
pub trait Lookout<M: Mirror> {
    /// What it has found so far, the last one first, where it tells.
    ghost found: { Self → Option (List FoundFile) };

    /// Looks for changes once, and publishes them at the desk where there are some. Changes that are refused are told in
    /// one line of `errors`, and what was in force stays.
    fn look<E: Write>(&mut self, desk: &mut Desk<M>, errors: &mut E)
        // What is in force is as before, or what changes that a file holds make of it:
        ensures in_force { (p : Publication) → M.holds desk.old.mirror p
            → HasPublished p (M.holds desk.new.mirror) }
        // those that were found.
        ensures found { TakesFound (found self.old) (found self.new)
            (M.holds desk.old.mirror) (M.holds desk.new.mirror) }
        // All connections stay.
        ensures connections { desk.new.connections ≡ desk.old.connections };
}
