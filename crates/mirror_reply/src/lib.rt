//! A client's side of HTTP: asking a mirror, and reading its response safely, whatever bytes come.
//!
//! [`write_request`] writes what asks a mirror for an answer with its proof. A [`Reply`] takes the bytes of the response,
//! in pieces cut anywhere, and says whether more have to come, whether the reply is whole, or why there is none. It never
//! waits for anything, so it serves a loop over many connections as well as [`fetch_reply`], which asks one mirror and
//! waits for its reply.
#![tactic(auto)]

mod body;
mod dial;
mod fetch_fault;
mod fetching;
mod fields;
mod head;
mod keeping;
mod laws;
mod limits;
mod parts;
mod progress;
mod reply;
mod reply_fault;
mod request;
mod stage;
mod standing;

pub use dial::{Dial, Receipt};
pub use fetch_fault::FetchFault;
pub use fetching::fetch_reply;
pub use laws::{
    honest_responses_are_replies, later_bytes_change_nothing, limits_law, one_reply, one_standing,
    replies_are_spelled, reply_or_fault,
};
pub use parts::Parts;
pub use progress::Progress;
pub use reply::Reply;
pub use reply_fault::ReplyFault;
pub use request::{is_host, write_request};
