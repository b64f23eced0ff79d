//! A file on a server, read by ranges: an [`HttpFile`] serves wherever bytes are read by their offset, as the source of a pack's
//! nodes. It is a client of HTTP/1.1 (RFC 9110, section 14, and RFC 9112) over a few connections that the caller makes
//! ([`Wires`]). Nothing that comes is trusted to be the file's: who reads has to check it.
#![tactic(auto)]

mod address;
mod bringing;
mod byte_range;
mod connections;
mod content_range;
mod fields;
mod head;
mod http_file;
mod incoming;
mod judging;
mod kept;
mod laws;
mod limits;
mod not_given;
mod receiving;
mod request;
mod span;
mod wires;

pub use address::{Address, Target, read_target};
pub use byte_range::ByteRange;
pub use http_file::HttpFile;
pub use judging::{Given, Judgement, judge_head};
pub use laws::limits_law;
pub use limits::WIRES;
pub use not_given::NotGiven;
pub use request::range_request;
pub use span::{Span, joined};
pub use wires::{Transfer, Wires};
