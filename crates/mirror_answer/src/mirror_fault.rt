//! Why a mirror gives no answer.

use mirror_reply::ReplyFault;
use osm_check::Why;
use thiserror::Error;

/// Why a mirror gives no answer. Its text says so in words.
#[derive(Clone, Copy, Debug, PartialEq, Eq, Error)]
pub enum MirrorFault {
    /// No connection to it was opened.
    #[error("the mirror can't be reached")]
    Unreached,
    /// The connection to it broke, or nothing came in time.
    #[error("the mirror went silent")]
    Silent,
    /// Its bytes hold no reply.
    #[error("{0}")]
    Reply(ReplyFault),
    /// It names another root than the client holds, and its proof shows nothing under that one.
    #[error("the mirror answers under another root")]
    OtherRoot,
    /// Its proof shows no answer, for this reason: neither `QueryRefused` nor `AnswerDiffers`.
    #[error("the mirror's proof is refused: {0}")]
    Proof(Why),
    /// More is to be done to check its proof than the client's budget has. Where the mirror is honest, so it is of every mirror.
    #[error("too much work")]
    Work,
}
