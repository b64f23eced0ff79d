//! What is known of a response from its head.

use crate::reply_fault::ReplyFault;

/// What is known of a response from its head. Places are counted in the bytes received.
#[derive(Clone, Copy, Debug)]
pub(crate) enum Stage {
    /// The head isn't complete.
    Head,
    /// The status is 200, and the body is from `start` to `end`: 40 bytes at least, and as many as the limit at most.
    Body {
        start: usize,
        end: usize,
    },
    /// The status is another one, and the text to keep is from `start` to `end`.
    Text {
        status: u16,
        start: usize,
        end: usize,
    },
    /// The head alone says that there is no reply.
    Failed(ReplyFault),
}
