//! How far a response has come.

use crate::reply_fault::ReplyFault;

/// How far a response has come.
#[derive(Clone, Copy, Debug, PartialEq, Eq)]
pub enum Progress {
    /// More bytes have to come.
    More,
    /// The reply is whole. Whatever comes after it doesn't matter.
    Whole,
    /// There is no reply, whatever may come.
    Failed(ReplyFault),
}
