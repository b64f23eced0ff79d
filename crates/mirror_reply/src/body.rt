//! The body of a response.

ghost use Rattle.std.specs.Prelude.{◌≡◌, ◌≤◌, IfNone, IfSome, false, length};
ghost use Rattle.mirror_reply.specs.Standings.{answer_len, by_body, failed, lacking, replied};
ghost use Rattle.mirror_reply.specs.declared.limits.TheConstants.{PREFIX_SIZE};
ghost use Rattle.mirror_reply.specs.internal.Stages.{Says};

use crate::limits::{PREFIX_SIZE, ROOT_SIZE};
use crate::parts::Parts;
use crate::progress::Progress;
use crate::reply_fault::ReplyFault;

/// How far a body of `size` bytes has come, of which these have.
#[tactic(auto, unfolding(crate::specs::Standings::by_body))]
pub(crate) fn body_progress(after: &[u8], size: usize, closed: bool) -> Progress
    requires { PREFIX_SIZE ≤ size }
    ensures { Says (by_body closed size after.now) result }
{
    if after.len() < PREFIX_SIZE {
        return lacking(closed, ReplyFault::ClosedEarly);
    }
    if answer_len(after) > (size - PREFIX_SIZE) as u64 {
        return Progress::Failed(ReplyFault::BadBody);
    }
    if after.len() < size {
        return lacking(closed, ReplyFault::ClosedEarly);
    }
    Progress::Whole
}

/// More has to come, or this is why there is no reply if the mirror has closed.
pub(crate) fn lacking(closed: bool, fault: ReplyFault) -> Progress
    ensures { Says (lacking closed fault) result }
{
    if closed {
        Progress::Failed(fault)
    } else {
        Progress::More
    }
}

/// The length of the answer, which stands after the root.
fn answer_len(body: &[u8]) -> u64
    requires { PREFIX_SIZE ≤ length body.now }
    ensures { result ≡ answer_len body.now }
{
    let mut len = [0; 8];
    len.copy_from_slice(&body[ROOT_SIZE..PREFIX_SIZE]);
    u64::from_be_bytes(len)
}

/// The parts of a body; `None` where its answer is longer than what there is.
#[tactic(auto, unfolding(crate::specs::Standings::by_body))]
pub(crate) fn split_body(body: &[u8]) -> Option<Parts<'_>>
    requires { PREFIX_SIZE ≤ length body.now }
    ensures some { IfSome result (λ parts. by_body false (length body.now) body.now
        ≡ replied parts.root.now parts.answer.now parts.proof.now) }
    ensures none { IfNone result (by_body false (length body.now) body.now ≡ failed ReplyFault.BadBody) }
{
    let len = answer_len(body);
    if len > (body.len() - PREFIX_SIZE) as u64 {
        return None;
    }
    let proof_at = PREFIX_SIZE + len as usize;
    let root = &body[..ROOT_SIZE];
    let answer = &body[PREFIX_SIZE..proof_at];
    let proof = &body[proof_at..];
    Some(Parts {
        root,
        answer,
        proof,
    })
}
