//! A mirror's response.

ghost use Rattle.std.specs.Prelude.{◌≡◌, Some, true};
ghost use Rattle.mirror_reply.specs.Replies.{HasReply};
ghost use Rattle.mirror_reply.specs.Taken.{Kept};
ghost use Rattle.osm_relay.specs.Logs.{Log, brings, ends};
ghost use Rattle.osm_relay.specs.declared.limits.TheConstants.{REPLY_LIMIT};
ghost use Rattle.osm_relay.specs.internal.Stages.{IsHeard, StandsAt};

use crate::judging::{Judged, judge};
use crate::limits::MIRROR_PIECE;
use crate::output::Output;
use crate::stage::{Search, Stage};
use crate::step::{Step, starved};
use crate::terms::Terms;
use crate::turn::Turn;
use crate::wire::{Reading, Wire};
use mirror_answer::MirrorFault;
use mirror_reply::{Parts, Progress, Reply};
use std::alloc::Global;

/// Reads a piece of the mirror's response.
pub(crate) fn listen<W: Wire>(
    alloc: Global,
    terms: &Terms,
    mirror: &mut W,
    search: Search,
    reply: Reply,
) -> Step
    ensures { (client : Log) → W.tells ≡ true
        → StandsAt terms.now (Stage.Listening search reply) client (Some (W.log mirror.old))
        → StandsAt terms.now result.stage client (Some (W.log mirror.new)) }
{
    let mut piece = [0; MIRROR_PIECE];
    match mirror.read(&mut piece) {
        Reading::Got(count) => Step {
            stage: listen_piece(alloc, terms, search, reply, &piece[..count]),
            turn: Turn::Moved(count),
        },
        Reading::Later => Step {
            stage: Stage::Listening { search, reply },
            turn: Turn::Waits,
        },
        Reading::Ended => Step {
            stage: listen_end(alloc, terms, search, reply),
            turn: Turn::Moved(0),
        },
        Reading::Gone => Step {
            stage: Stage::Choosing(search.failed(MirrorFault::Silent)),
            turn: Turn::Moved(0),
        },
    }
}

/// Where the conversation stands once this piece has come.
fn listen_piece(
    alloc: Global,
    terms: &Terms,
    search: Search,
    mut reply: Reply,
    piece: &[u8],
) -> Stage
    ensures { (c : Log) (m : Log) → StandsAt terms.now (Stage.Listening search reply) c (Some m)
        → StandsAt terms.now result c (Some (brings piece.now m)) }
{
    match reply.take(piece) {
        Ok(Progress::More) => Stage::Listening { search, reply },
        Ok(Progress::Whole) => settle(alloc, terms, search, reply),
        Ok(Progress::Failed(fault)) => { Stage::Choosing(search.failed(MirrorFault::Reply(fault))) }
        Err(_) => starved(),
    }
}

/// Where the conversation stands once the mirror has closed.
fn listen_end(alloc: Global, terms: &Terms, search: Search, reply: Reply) -> Stage
    ensures { (c : Log) (m : Log) → StandsAt terms.now (Stage.Listening search reply) c (Some m)
        → StandsAt terms.now result c (Some (ends m)) }
{
    match reply.close() {
        Ok(()) => settle(alloc, terms, search, reply),
        Err(fault) => Stage::Choosing(search.failed(MirrorFault::Reply(fault))),
    }
}

/// Where the conversation stands once the reply is whole.
fn settle(alloc: Global, terms: &Terms, search: Search, reply: Reply) -> Stage
    ensures { (c : Log) (m : Log) → IsHeard search reply c m → StandsAt terms.now result c (Some m) }
{
    match reply.parts() {
        Some(parts) => settle_parts(alloc, terms, search, parts),
        // A whole reply has its parts.
        None => Stage::Choosing(search.failed(MirrorFault::Silent)),
    }
}

/// Where the conversation stands by the parts of a whole reply.
fn settle_parts(alloc: Global, terms: &Terms, search: Search, parts: Parts<'_>) -> Stage
    ensures { (reply : Kept) (c : Log) (m : Log) → IsHeard search reply c m
        → HasReply REPLY_LIMIT m.brought parts.entry.root.now parts.entry.answer.now parts.entry.proof.now
        → StandsAt terms.now result c (Some m) }
{
    match judge(alloc, terms, &search.question, parts) {
        Ok(Judged::Given(response)) => Stage::Answering(Output::new(response)),
        Ok(Judged::Refused(fault)) => Stage::Choosing(search.failed(fault)),
        Err(_) => starved(),
    }
}
