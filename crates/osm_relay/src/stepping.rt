//! The next step of a conversation.

ghost use Rattle.std.specs.Prelude.{◌≡◌, Option, option_map, true};
ghost use Rattle.osm_relay.specs.Logs.{Log};
ghost use Rattle.osm_relay.specs.declared.terms.Terms.{Terms as TermsWord};
ghost use Rattle.osm_relay.specs.internal.Stages.{StandsAt};

use crate::answering::answer;
use crate::asking::ask;
use crate::choosing::choose;
use crate::listening::listen;
use crate::network::Network;
use crate::output::Output;
use crate::receiving::receive;
use crate::stage::{Search, Stage};
use crate::step::Step;
use crate::terms::Terms;
use crate::turn::Turn;
use crate::wire::Wire;
use mirror_answer::MirrorFault;
use mirror_reply::Reply;
use std::alloc::Global;

/// Does the next step.
pub(crate) fn step_on<W: Wire, N: Network<W>>(
    alloc: Global,
    terms: &Terms,
    client: &mut W,
    mirror: &mut Option<W>,
    network: &mut N,
    number: u32,
    stage: Stage,
) -> Step
    ensures log { N.log network.new ≡ N.log network.old }
    ensures stage { W.tells ≡ true
        → StandsAt terms.now stage (W.log client.old) (option_map W.log mirror.old)
        → StandsAt terms.now result.stage (W.log client.new) (option_map W.log mirror.new) }
{
    match stage {
        Stage::Hearing(heard) => receive(alloc, client, heard),
        Stage::Choosing(search) => Step {
            stage: choose(alloc, network, number, mirror, search),
            turn: Turn::Moved(0),
        },
        Stage::Asking { search, request } => ask_mirror(alloc, mirror, search, request),
        Stage::Listening { search, reply } => listen_to(alloc, terms, mirror, search, reply),
        Stage::Answering(response) => answer(client, response),
        Stage::Over { whole } => Step {
            stage: Stage::Over { whole },
            turn: Turn::Waits,
        },
    }
}

fn ask_mirror<W: Wire>(
    alloc: Global,
    mirror: &mut Option<W>,
    search: Search,
    request: Output,
) -> Step
    ensures { (terms : TermsWord) (client : Log) → W.tells ≡ true
        → StandsAt terms (Stage.Asking search request) client (option_map W.log mirror.old)
        → StandsAt terms result.stage client (option_map W.log mirror.new) }
{
    match mirror {
        Some(wire) => ask(alloc, wire, search, request),
        None => Step {
            stage: Stage::Choosing(search),
            turn: Turn::Moved(0),
        },
    }
}

fn listen_to<W: Wire>(
    alloc: Global,
    terms: &Terms,
    mirror: &mut Option<W>,
    search: Search,
    reply: Reply,
) -> Step
    ensures { (client : Log) → W.tells ≡ true
        → StandsAt terms.now (Stage.Listening search reply) client (option_map W.log mirror.old)
        → StandsAt terms.now result.stage client (option_map W.log mirror.new) }
{
    match mirror {
        Some(wire) => listen(alloc, terms, wire, search, reply),
        None => Step {
            stage: Stage::Choosing(search),
            turn: Turn::Moved(0),
        },
    }
}

/// Where the conversation stands once what it waits for has taken too long.
pub(crate) fn impatient(stage: Stage) -> Stage
    ensures { (terms : TermsWord) (c : Log) (m : Option Log) → StandsAt terms stage c m
        → StandsAt terms result c m }
{
    match stage {
        Stage::Asking { search, .. } => Stage::Choosing(search),
        Stage::Listening { search, .. } => Stage::Choosing(search.failed(MirrorFault::Silent)),
        Stage::Hearing(_) => Stage::Over { whole: false },
        Stage::Answering(_) => Stage::Over { whole: false },
        Stage::Choosing(search) => Stage::Choosing(search),
        Stage::Over { whole } => Stage::Over { whole },
    }
}
