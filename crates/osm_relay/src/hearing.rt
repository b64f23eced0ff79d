//! Hearing a client's request.

ghost use Rattle.std.specs.Prelude.{◌≡◌, ◌++◌, ◌<◌, IfOk, []};
ghost use Rattle.http_messages.specs.HeadEnds.{skip_breaks};
ghost use Rattle.osm_relay.specs.internal.Finding.{Reacts};

use crate::finding::{Found, find};
use crate::question::Question;
use http_messages::without_breaks;
use std::alloc::{AllocError, Global};
use std::marker::Model;

/// What was heard of a client's request while it isn't complete. Contracts see it as the bytes that came, without CR and LF
/// before the request.
#[derive(Drop)]
pub(crate) struct Heard {
    bytes: Vec<u8>,
    /// The bytes are no complete request as long as there are fewer; 0 where their head isn't complete.
    needed: usize,
}

impl Model for Heard {
    ghost use Rattle.std.specs.Prelude.{List, ℕ};
    ghost use Rattle.osm_relay.specs.internal.Kept.{IsOpen};

    ghost Value = { List ℕ };

    ghost view = { λ heard. heard.bytes.items };

    ghost invariant = { λ heard. IsOpen heard.needed heard.bytes.items };
}

/// What a piece of a request comes to.
pub(crate) enum Reaction {
    /// The request still isn't complete.
    More(Heard),
    /// This response, at once.
    Respond(Vec<u8>),
    /// A mirror is to be asked this.
    Ask(Question),
}

impl Heard {
    /// Nothing yet. It takes no memory.
    pub(crate) fn new(alloc: Global) -> Heard
        ensures { result ≡ [] }
    {
        Heard {
            bytes: Vec::new(alloc),
            needed: 0,
        }
    }
}

/// Hears the next piece. All pieces together are looked at in time that is linear in their bytes. Refused only where memory
/// runs out.
pub(crate) fn hear_piece(alloc: Global, heard: Heard, piece: &[u8]) -> Result<Reaction, AllocError>
    ensures { IfOk result (Reacts (skip_breaks (heard ++ piece.now))) }
{
    let Heard { mut bytes, needed } = heard;
    let before = bytes.len();
    bytes.extend_from_slice(later_part(before, piece))?;
    if bytes.len() < needed {
        return Ok(Reaction::More(Heard { bytes, needed }));
    }
    // Without a complete head all bytes before have been scanned; with one there is no need to scan it again.
    let scanned = if needed == 0 { before } else { 0 };
    match find(alloc, &bytes, scanned)? {
        Found::Open(needed) => Ok(Reaction::More(Heard { bytes, needed })),
        Found::Respond(response) => Ok(Reaction::Respond(response)),
        Found::Ask(question) => Ok(Reaction::Ask(question)),
    }
}

/// What of a piece belongs to the request: CR and LF before it don't.
fn later_part(before: usize, piece: &[u8]) -> &[u8]
    ensures first { before ≡ 0 → result.now ≡ skip_breaks piece.now }
    ensures later { 0 < before → result.now ≡ piece.now }
{
    if before == 0 {
        without_breaks(piece)
    } else {
        piece
    }
}
