//! The request to a mirror.

ghost use Rattle.std.specs.Prelude.{◌≡◌, ◌≤◌, Some, true, length, take};
ghost use Rattle.osm_relay.specs.Logs.{Log, takes};
ghost use Rattle.osm_relay.specs.declared.terms.Terms.{Terms};
ghost use Rattle.osm_relay.specs.internal.Stages.{StandsAt};

use crate::limits::REPLY_LIMIT;
use crate::output::Output;
use crate::stage::{Search, Stage};
use crate::step::Step;
use crate::turn::Turn;
use crate::wire::{Wire, Writing};
use mirror_answer::MirrorFault;
use mirror_reply::Reply;
use std::alloc::Global;

/// Writes the request to the mirror, as far as it takes it. A mirror that is gone before it has taken a byte can't be reached.
pub(crate) fn ask<W: Wire>(alloc: Global, mirror: &mut W, search: Search, request: Output) -> Step
    ensures { (terms : Terms) (client : Log) → W.tells ≡ true
        → StandsAt terms (Stage.Asking search request) client (Some (W.log mirror.old))
        → StandsAt terms result.stage client (Some (W.log mirror.new)) }
{
    match mirror.write(request.bytes()) {
        Writing::Took(0) => Step {
            stage: Stage::Asking { search, request },
            turn: Turn::Waits,
        },
        Writing::Took(count) => Step {
            stage: ask_on(alloc, search, request, count),
            turn: Turn::Moved(count),
        },
        Writing::Gone => Step {
            stage: Stage::Choosing(search),
            turn: Turn::Moved(0),
        },
    }
}

/// Where the conversation stands once the mirror has taken so many bytes of the request.
fn ask_on(alloc: Global, search: Search, mut request: Output, count: usize) -> Stage
    requires { count ≤ length request }
    ensures { (terms : Terms) (c : Log) (m : Log) → StandsAt terms (Stage.Asking search request) c (Some m)
        → StandsAt terms result c (Some (takes (take count request) m)) }
{
    request.advance(count);
    let search = search.failed(MirrorFault::Silent);
    if request.is_empty() {
        let reply = Reply::new(alloc, REPLY_LIMIT);
        return Stage::Listening { search, reply };
    }
    Stage::Asking { search, request }
}
