//! The client's request.

ghost use Rattle.std.specs.Prelude.{◌≡◌, Option, false, true};
ghost use Rattle.osm_relay.specs.Logs.{Log, brings};
ghost use Rattle.osm_relay.specs.declared.terms.Terms.{Terms};
ghost use Rattle.osm_relay.specs.internal.Stages.{StandsAt};

use crate::hearing::{Heard, Reaction, hear_piece};
use crate::limits::CLIENT_PIECE;
use crate::output::Output;
use crate::stage::{Search, Stage};
use crate::step::{Step, starved};
use crate::turn::Turn;
use crate::wire::{Reading, Wire};
use mirror_answer::MirrorFault;
use std::alloc::Global;

/// Reads a piece of the client's request. A client that is gone, or sends no more, before its request is complete is answered
/// nothing.
pub(crate) fn receive<W: Wire>(alloc: Global, client: &mut W, heard: Heard) -> Step
    ensures { (terms : Terms) (mirror : Option Log) → W.tells ≡ true
        → StandsAt terms (Stage.Hearing heard) (W.log client.old) mirror
        → StandsAt terms result.stage (W.log client.new) mirror }
{
    let mut piece = [0; CLIENT_PIECE];
    match client.read(&mut piece) {
        Reading::Got(count) => Step {
            stage: receive_piece(alloc, heard, &piece[..count]),
            turn: Turn::Moved(count),
        },
        Reading::Later => Step {
            stage: Stage::Hearing(heard),
            turn: Turn::Waits,
        },
        Reading::Ended => over(),
        Reading::Gone => over(),
    }
}

/// It is over, and the client has taken nothing.
fn over() -> Step
    ensures { result.stage ≡ Stage.Over false }
{
    Step {
        stage: Stage::Over { whole: false },
        turn: Turn::Moved(0),
    }
}

/// Where the conversation stands once this piece has come.
fn receive_piece(alloc: Global, heard: Heard, piece: &[u8]) -> Stage
    ensures { (terms : Terms) (c : Log) (m : Option Log) → StandsAt terms (Stage.Hearing heard) c m
        → StandsAt terms result (brings piece.now c) m }
{
    match hear_piece(alloc, heard, piece) {
        Ok(Reaction::More(heard)) => Stage::Hearing(heard),
        Ok(Reaction::Respond(response)) => Stage::Answering(Output::new(response)),
        Ok(Reaction::Ask(question)) => Stage::Choosing(Search {
            question,
            next: 0,
            fault: MirrorFault::Unreached,
        }),
        Err(_) => starved(),
    }
}
