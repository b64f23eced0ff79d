//! Responses, each with what it says.

use mirror_reply::{Progress, Reply, ReplyFault};
use std::alloc::Global;
use std::process::Abort;
use std::test::Fail;

/// The limit of a body in these rows.
pub(super) const LIMIT: u64 = 50;

/// A body: a root of 32 bytes, the length 3 of the answer in eight bytes, the answer `abc`, and the proof `proof`.
pub(super) const BODY: &[u8] = b"RRRRRRRRRRRRRRRRRRRRRRRRRRRRRRRR\0\0\0\0\0\0\0\x03abcproof";

/// What a response says.
#[derive(Clone, Copy)]
pub(super) enum Says<'a> {
    /// A reply with this answer and this proof.
    Reply(&'a [u8], &'a [u8]),
    /// A fault, with this text of the mirror; it is known before the mirror closes.
    Fault(ReplyFault, &'a [u8]),
    /// A fault, with this text of the mirror, once the mirror has closed.
    FaultAtEnd(ReplyFault, &'a [u8]),
}

/// The response says this, in whatever pieces it comes.
pub(super) fn check(
    rt: &(impl Abort + AllocGlobal),
    response: &[u8],
    says: Says<'_>,
) -> Result<(), Fail> {
    check_once(rt, response, says)?;
    check_byte_by_byte(rt, response, says)?;
    for at in 0..response.len() {
        check_in_two(rt, response, at, says)?;
    }
    Ok(())
}

/// The response says this if it comes in one piece.
pub(super) fn check_once(
    rt: &(impl Abort + AllocGlobal),
    response: &[u8],
    says: Says<'_>,
) -> Result<(), Fail> {
    check_in_two(rt, response, response.len(), says)
}

fn check_in_two(
    rt: &(impl Abort + AllocGlobal),
    response: &[u8],
    at: usize,
    says: Says<'_>,
) -> Result<(), Fail> {
    let mut reply = Reply::new(rt.alloc(), LIMIT);
    let (first, second) = response.split_at_checked(at).unwrap_or((response, b""));
    reply.take(first)?;
    let progress = reply.take(second)?;
    check_reply(rt, &reply, progress, says);
    Ok(())
}

fn check_byte_by_byte(
    rt: &(impl Abort + AllocGlobal),
    response: &[u8],
    says: Says<'_>,
) -> Result<(), Fail> {
    let mut reply = Reply::new(rt.alloc(), LIMIT);
    let mut progress = Progress::More;
    for byte in response {
        progress = reply.take(&[*byte])?;
    }
    check_reply(rt, &reply, progress, says);
    Ok(())
}

/// The reply has taken all of the response, and said this at last.
fn check_reply(rt: &impl Abort, reply: &Reply, progress: Progress, says: Says<'_>) {
    match says {
        Says::Reply(answer, proof) => {
            assert_eq!(rt; progress, Progress::Whole);
            assert_eq!(rt; reply.close(), Ok(()));
            check_parts(rt, reply, answer, proof);
            assert_eq!(rt; reply.text(), b"".as_slice());
        }
        Says::Fault(fault, text) => {
            assert_eq!(rt; progress, Progress::Failed(fault));
            check_fault(rt, reply, fault, text);
        }
        Says::FaultAtEnd(fault, text) => {
            assert_eq!(rt; progress, Progress::More);
            check_fault(rt, reply, fault, text);
        }
    }
}

fn check_fault(rt: &impl Abort, reply: &Reply, fault: ReplyFault, text: &[u8]) {
    assert_eq!(rt; reply.close(), Err(fault));
    assert_eq!(rt; reply.text(), text);
    assert!(rt; reply.parts().is_none());
}

fn check_parts(rt: &impl Abort, reply: &Reply, answer: &[u8], proof: &[u8]) {
    let Some(parts) = reply.parts() else {
        assert!(rt; false, "a whole reply has parts");
        return;
    };
    assert_eq!(rt; parts.root, b"RRRRRRRRRRRRRRRRRRRRRRRRRRRRRRRR".as_slice());
    assert_eq!(rt; parts.answer, answer);
    assert_eq!(rt; parts.proof, proof);
}

/// A response with this head and this body.
pub(super) fn response(alloc: Global, head: &[u8], body: &[u8]) -> Result<Vec<u8>, Fail> {
    let mut response = Vec::new(alloc);
    response.extend_from_slice(head)?;
    response.extend_from_slice(body)?;
    Ok(response)
}
