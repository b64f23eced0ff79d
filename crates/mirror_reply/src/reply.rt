//! A mirror's response, piece by piece.

ghost use Rattle.std.specs.Prelude.{◌≡◌, ◌≢◌, ◌++◌, ◌<◌, ℕ, List, IfErr, IfNone, IfOk, IfSome, OnErr, [], length, take, drop, false, true};
ghost use Rattle.mirror_reply.specs.Replies.{HasReply};
ghost use Rattle.mirror_reply.specs.Standings.{HasFault, HasText, Stands, waits};
ghost use Rattle.mirror_reply.specs.Taken.{HasTaken, Tells};

use crate::keeping::keep;
use crate::parts::Parts;
use crate::progress::Progress;
use crate::reply_fault::ReplyFault;
use crate::stage::Stage;
use crate::standing::{parts_of, progress_of, text_of};
use std::alloc::{AllocError, Global};
use std::marker::Model;

/// A mirror's response, of which the bytes are taken in pieces cut anywhere. Contracts see the bytes that it keeps, which
/// are those received until they decide whether there is a reply, and how long a body may be.
///
/// It takes memory for the bytes that have come, and never for those that the mirror only announces. The end of the head
/// is looked for from where the last piece ended, the head is read once, and each byte of the body is kept once: all of it
/// is linear in the bytes received.
#[derive(Drop)]
pub struct Reply {
    bytes: Vec<u8>,
    limit: u64,
    stage: Stage,
}

impl Model for Reply {
    ghost use Rattle.mirror_reply.specs.Taken.{Kept};
    ghost use Rattle.mirror_reply.specs.internal.Stages.{IsStage};

    ghost Value = { Kept };

    ghost view = { λ r. record { limit = r.limit; bytes = r.bytes.items } };

    ghost invariant = { λ r. IsStage r.limit r.bytes.items r.stage };
}

impl Reply {
    /// Nothing has been received yet. A body may have `limit` bytes at most: the root, the answer's length, the answer and
    /// the proof. It takes no memory.
    pub fn new(alloc: Global, limit: u64) -> Reply
        ensures { result ≡ record { limit = limit; bytes = [] } }
    {
        Reply {
            bytes: Vec::new(alloc),
            limit,
            stage: Stage::Head,
        }
    }

    /// Takes the next piece, and says how far the response has come. Once it is whole or has failed, nothing more is taken,
    /// and the same is said again.
    ///
    /// Refused only where memory runs out; no part of the piece is taken then.
    pub fn take(&mut self, piece: &[u8]) -> Result<Progress, AllocError>
        // What is said is true of all bytes received, in whatever pieces they came,
        ensures told { (received : List ℕ) → HasTaken self.old received
            → IfOk result (Tells self.old.limit false (received ++ piece.now)) }
        // and of these it now keeps what matters.
        ensures taken { (received : List ℕ) → HasTaken self.old received
            → IfOk result (λ progress. HasTaken self.new (received ++ piece.now)) }
        ensures unchanged { OnErr result (self.new ≡ self.old) }
        // Memory is needed only for bytes that have come and matter.
        ensures needed { OnErr result ((0 < length piece.now) × Stands self.old.limit false self.old.bytes waits) }
        ensures limit { self.new.limit ≡ self.old.limit }
    {
        let progress = progress_of(&self.bytes, self.limit, self.stage, false);
        let Progress::More = progress else {
            return Ok(progress);
        };
        self.stage = keep(&mut self.bytes, self.limit, self.stage, piece)?;
        Ok(progress_of(&self.bytes, self.limit, self.stage, false))
    }

    /// Says what becomes of the response now that the mirror has closed the connection: whether it is whole, or why there
    /// is no reply. It takes no memory.
    pub fn close(&self) -> Result<(), ReplyFault>
        ensures whole { (received : List ℕ) → HasTaken self.now received
            → IfOk result (λ done. Tells self.now.limit true received Progress.Whole) }
        ensures fault { (received : List ℕ) → HasTaken self.now received
            → IfErr result (HasFault self.now.limit true received) }
    {
        match progress_of(&self.bytes, self.limit, self.stage, true) {
            Progress::Whole => Ok(()),
            Progress::Failed(fault) => Err(fault),
            Progress::More => unreachable!("nothing more comes"),
        }
    }

    /// The parts of a whole reply; `None` as long as it isn't whole, or where there is none. It takes no memory.
    pub fn parts(&self) -> Option<Parts<'_>>
        ensures some { (received : List ℕ) → HasTaken self.now received
            → IfSome result (λ parts. HasReply self.now.limit received parts.root.now parts.answer.now parts.proof.now) }
        ensures none { (received : List ℕ) → HasTaken self.now received → IfNone result
            ((root answer proof : List ℕ) → ¬ (HasReply self.now.limit received root answer proof)) }
    {
        parts_of(&self.bytes, self.limit, self.stage)
    }

    /// The beginning of the mirror's text, where its status isn't 200: at most 200 bytes, and no more than its head
    /// announces. They may be any bytes, so show only those that can be printed. Empty where the status is 200, or isn't
    /// known yet. It takes no memory.
    pub fn text(&self) -> &[u8]
        ensures { (received : List ℕ) → HasTaken self.now received → HasText received result.now }
    {
        text_of(&self.bytes, self.limit, self.stage)
    }
}
