//! A lookout for a mirror that doesn't change.

ghost use Rattle.std.specs.Prelude.{◌≡◌, [], Some};
ghost use Rattle.osm_keys.specs.Publications.{Publication};
ghost use Rattle.osm_desk.specs.Published.{HasPublished, TakesFound};

use crate::desk::Desk;
use crate::lookout::Lookout;
use osm_gate::Mirror;
use std::io::Write;

/// Never finds any changes, at desks over whatever mirrors.
#[derive(Clone, Copy, Debug, Drop)]
pub struct NoLookout;

impl<M: Mirror> Lookout<M> for NoLookout {
    ghost use Rattle.std.specs.Prelude.{[], Some};

    ghost found = { λ _. Some [] };

    /// Does nothing.
    fn look<E: Write>(&mut self, desk: &mut Desk<M>, errors: &mut E)
        ensures in_force { (p : Publication) → M.holds desk.old.mirror p
            → HasPublished p (M.holds desk.new.mirror) }
        // Nothing was found, then and now.
        ensures found { TakesFound (Some []) (Some [])
            (M.holds desk.old.mirror) (M.holds desk.new.mirror) }
        ensures connections { desk.new.connections ≡ desk.old.connections }
        // The desk is as before.
        ensures same { desk.new ≡ desk.old }
    {}
}
