//! The response to the client.

ghost use Rattle.std.specs.Prelude.{◌≡◌, ◌≤◌, Option, length, take, true};
ghost use Rattle.osm_relay.specs.Logs.{Log, takes};
ghost use Rattle.osm_relay.specs.declared.terms.Terms.{Terms};
ghost use Rattle.osm_relay.specs.internal.Stages.{StandsAt};

use crate::output::Output;
use crate::stage::Stage;
use crate::step::Step;
use crate::turn::Turn;
use crate::wire::{Wire, Writing};

/// Writes the response to the client, as far as it takes it.
pub(crate) fn answer<W: Wire>(client: &mut W, response: Output) -> Step
    ensures { (terms : Terms) (mirror : Option Log) → W.tells ≡ true
        → StandsAt terms (Stage.Answering response) (W.log client.old) mirror
        → StandsAt terms result.stage (W.log client.new) mirror }
{
    match client.write(response.bytes()) {
        Writing::Took(0) => Step {
            stage: Stage::Answering(response),
            turn: Turn::Waits,
        },
        Writing::Took(count) => Step {
            stage: answer_on(response, count),
            turn: Turn::Moved(count),
        },
        Writing::Gone => Step {
            stage: Stage::Over { whole: false },
            turn: Turn::Moved(0),
        },
    }
}

/// Where the conversation stands once the client has taken so many bytes of the response.
fn answer_on(mut response: Output, count: usize) -> Stage
    requires { count ≤ length response }
    ensures { (terms : Terms) (c : Log) (m : Option Log) → StandsAt terms (Stage.Answering response) c m
        → StandsAt terms result (takes (take count response) c) m }
{
    response.advance(count);
    if response.is_empty() {
        return Stage::Over { whole: true };
    }
    Stage::Answering(response)
}
