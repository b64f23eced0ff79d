//! What the bytes kept of a response say.

ghost use Rattle.std.specs.Prelude.{◌≡◌, ◌≢◌, ℕ, List, IfNone, IfSome, false, length};
ghost use Rattle.mirror_reply.specs.Standings.{HasText, Stands, replied};
ghost use Rattle.mirror_reply.specs.internal.Stages.{IsStage, SaysOf};

use crate::body::{body_progress, lacking, split_body};
use crate::parts::Parts;
use crate::progress::Progress;
use crate::reply_fault::ReplyFault;
use crate::stage::Stage;

/// How far the response has come.
pub(crate) fn progress_of(bytes: &[u8], limit: u64, stage: Stage, closed: bool) -> Progress
    requires { IsStage limit bytes.now stage }
    ensures { SaysOf limit closed bytes.now result }
{
    match stage {
        Stage::Head => lacking(closed, ReplyFault::ClosedEarly),
        Stage::Failed(fault) => Progress::Failed(fault),
        Stage::Text { status, end, .. } => {
            if bytes.len() < end {
                return lacking(closed, ReplyFault::BadStatus(status));
            }
            Progress::Failed(ReplyFault::BadStatus(status))
        }
        Stage::Body { start, end } => body_progress(&bytes[start..], end - start, closed),
    }
}

/// The parts of a whole reply.
pub(crate) fn parts_of(bytes: &[u8], limit: u64, stage: Stage) -> Option<Parts<'_>>
    requires { IsStage limit bytes.now stage }
    ensures some { IfSome result (λ parts. Stands limit false bytes.now
        (replied parts.root.now parts.answer.now parts.proof.now)) }
    ensures none { IfNone result ((root answer proof : List ℕ) → ¬ (Stands limit false bytes.now (replied root answer proof))) }
{
    let Stage::Body { start, end } = stage else {
        return None;
    };
    if bytes.len() < end {
        return None;
    }
    split_body(&bytes[start..end])
}

/// The beginning of the mirror's text, where its status isn't 200.
pub(crate) fn text_of(bytes: &[u8], limit: u64, stage: Stage) -> &[u8]
    requires { IsStage limit bytes.now stage }
    ensures { HasText bytes.now result.now }
{
    let Stage::Text { start, end, .. } = stage else {
        return &[];
    };
    &bytes[start..end.min(bytes.len())]
}
