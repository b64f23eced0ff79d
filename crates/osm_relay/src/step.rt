//! Steps of a conversation.

ghost use Rattle.std.specs.Prelude.{◌≡◌};
ghost use Rattle.osm_relay.specs.Pages.{starved};

use crate::output::Output;
use crate::stage::Stage;
use crate::turn::Turn;

/// Where a conversation stands after a step, and what the step did.
#[derive(Drop)]
pub(crate) struct Step {
    pub(crate) stage: Stage,
    pub(crate) turn: Turn,
}

/// What comes next where memory has run out: the client is told so, which takes none.
pub(crate) fn starved() -> Stage
    ensures { result ≡ Stage.Answering starved }
{
    Stage::Answering(Output::starved())
}
