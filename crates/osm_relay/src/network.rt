//! Where clients come from, and how mirrors are reached.

ghost use Rattle.std.specs.Prelude.{◌≡◌, IfOk, IfSome, List, Option, true};
ghost use Rattle.mirror_reply.specs.Requests.{is_host_text};
ghost use Rattle.osm_relay.specs.Events.{Event, left, noted, taken_as, waited};
ghost use Rattle.osm_relay.specs.Logs.{fresh};

use crate::relay_fault::RelayFault;
use crate::turn::{Awaits, Turn};
use crate::wire::Wire;

/// What is next to do. Each may be told in vain, and of a conversation that is over.
#[derive(Clone, Copy, Debug, PartialEq, Eq)]
pub enum News {
    /// A client waits to be taken.
    Waiting,
    /// The conversation may go on.
    Ready(u32),
    /// What the conversation waits for has taken too long.
    Silent(u32),
}

/// Whether a further client may be taken.
#[derive(Clone, Copy, Debug, PartialEq, Eq)]
pub enum Room {
    /// One may be taken.
    Free,
    /// As many conversations are open as may be.
    Full,
    /// No further one is wanted.
    Closed,
}

/// The clients that come, and the mirrors that can be asked, which are numbered from 0. No call waits but `next`.
pub trait Network<W: Wire> {
    /// What was waited for, and which clients came and were let go so far, the newest first, where it tells.
    ghost log: { Self → Option (List Event) };

    /// Waits for what is next to do. That a client waits is told only where there is room for it.
    fn next(&mut self, room: Room) -> Result<News, RelayFault>
        ensures { log self.new ≡ noted (waited room result) (log self.old) };

    /// Takes the client that waits, for the conversation of this number; `None` where there is none any more.
    fn take(&mut self, number: u32) -> Result<Option<W>, RelayFault>
        ensures taken { log self.new ≡ noted (taken_as number result) (log self.old) }
        ensures fresh { IfOk result (λ client. IfSome client (λ wire. W.tells ≡ true → W.log wire ≡ fresh)) };

    /// The name of a mirror, as it stands in the field `Host` of a request: `mirror.example:8080`; `None` where there are no
    /// so many mirrors.
    fn host(&self, mirror: usize) -> Option<&str>
        ensures { IfSome result (λ host. is_host_text host.now ≡ true) };

    /// Begins to open a new connection to a mirror, for the conversation of this number; `None` where that fails at once.
    fn dial(&mut self, number: u32, mirror: usize) -> Option<W>
        ensures fresh { IfSome result (λ wire. W.tells ≡ true → W.log wire ≡ fresh) }
        ensures log { log self.new ≡ log self.old };

    /// Notes what the last turn of the conversation did, and what it waits for now. Where something moved, it is told soon that
    /// the conversation may go on; if it waits for a request or a mirror's response, once something of that has come.
    fn note(&mut self, number: u32, awaits: Awaits, turn: Turn)
        ensures { log self.new ≡ log self.old };

    /// Lets the client of a conversation that is over go. Where it took all of its response, that still arrives.
    fn let_go(&mut self, number: u32, client: W, whole: bool)
        ensures { log self.new ≡ noted (left number whole (W.log client)) (log self.old) };
}
