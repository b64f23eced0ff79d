//! Keeping the bytes of a response, as far as they matter.

ghost use Rattle.std.specs.Prelude.{◌≡◌, ◌≢◌, ◌<◌, IfOk, OnErr, OnOk, length};
ghost use Rattle.mirror_reply.specs.internal.Stages.{IsStage, Keeps, Pushes};
ghost use Rattle.mirror_reply.specs.Heads.{BeginsWith, unfinished};

use crate::head::read_stage;
use crate::limits::HEAD_LIMIT;
use crate::reply_fault::ReplyFault;
use crate::stage::Stage;
use http_messages::head_end;
use std::alloc::AllocError;

/// Keeps what matters of the piece, and says what is known then.
pub(crate) fn keep(
    bytes: &mut Vec<u8>,
    limit: u64,
    stage: Stage,
    piece: &[u8],
) -> Result<Stage, AllocError>
    requires { IsStage limit bytes.old.items stage }
    ensures stage { IfOk result (IsStage limit bytes.new.items) }
    ensures kept { OnOk result (Keeps limit bytes.old.items bytes.new.items piece.now) }
    ensures unchanged { OnErr result (bytes.new.items ≡ bytes.old.items) }
    ensures needed { OnErr result (0 < length piece.now) }
{
    if let Stage::Head = stage {
        return keep_head(bytes, limit, piece);
    }
    keep_rest(bytes, limit, stage, piece)?;
    Ok(stage)
}

/// Keeps what matters of what comes after the head.
fn keep_rest(bytes: &mut Vec<u8>, limit: u64, stage: Stage, piece: &[u8]) -> Result<(), AllocError>
    requires known { IsStage limit bytes.old.items stage }
    requires complete { stage ≢ Stage.Head }
    ensures stage { OnOk result (IsStage limit bytes.new.items stage) }
    ensures kept { OnOk result (Keeps limit bytes.old.items bytes.new.items piece.now) }
    ensures unchanged { OnErr result (bytes.new.items ≡ bytes.old.items) }
    ensures needed { OnErr result (0 < length piece.now) }
{
    match stage {
        Stage::Body { end, .. } => push_up_to(bytes, piece, end),
        Stage::Text { end, .. } => push_up_to(bytes, piece, end),
        Stage::Failed(_) => Ok(()),
        Stage::Head => Ok(()),
    }
}

/// The same, as long as the head isn't complete.
fn keep_head(bytes: &mut Vec<u8>, limit: u64, piece: &[u8]) -> Result<Stage, AllocError>
    requires { BeginsWith bytes.old.items unfinished }
    ensures stage { IfOk result (IsStage limit bytes.new.items) }
    ensures kept { OnOk result (Keeps limit bytes.old.items bytes.new.items piece.now) }
    ensures unchanged { OnErr result (bytes.new.items ≡ bytes.old.items) }
    ensures needed { OnErr result (0 < length piece.now) }
{
    let before = bytes.len();
    push_up_to(bytes, piece, HEAD_LIMIT)?;
    let Some(len) = head_end(bytes, before) else {
        if bytes.len() < HEAD_LIMIT {
            return Ok(Stage::Head);
        }
        return Ok(Stage::Failed(ReplyFault::BadHead));
    };
    let stage = read_stage(&bytes[..len], limit);
    let used = bytes.len() - before;
    match keep_rest(bytes, limit, stage, &piece[used..]) {
        Ok(()) => Ok(stage),
        Err(error) => {
            bytes.truncate(before);
            Err(error)
        }
    }
}

/// Appends the front of the piece, as long as there are fewer bytes than `end`.
fn push_up_to(bytes: &mut Vec<u8>, piece: &[u8], end: usize) -> Result<(), AllocError>
    ensures pushed { OnOk result (Pushes bytes.old.items bytes.new.items piece.now end) }
    ensures unchanged { OnErr result (bytes.new.items ≡ bytes.old.items) }
    ensures needed { OnErr result (0 < length piece.now) }
{
    let room = end.saturating_sub(bytes.len());
    let count = room.min(piece.len());
    bytes.extend_from_slice(&piece[..count])
}
