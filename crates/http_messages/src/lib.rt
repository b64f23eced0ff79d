//! HTTP messages: the request that the bytes of a connection begin with, its head, its fields and the query that it carries,
//! and the bytes of a response.
//!
//! [`first_request`] says whether the bytes begin with a complete request, with a part of one, or with one that is
//! refused as it stands. [`method_of`] tells methods apart, and [`query_of`] finds the query that a request carries.
//! [`append_response`] writes a response, and [`append_head`] the head of one whose body has [`total_len`] bytes. What is
//! answered is decided by the crates above.
//!
//! What reads other heads, as those of responses, finds their fields by [`only_value`], what they say of the body
//! by [`is_coded`] and [`stated_length`], and numbers in them by [`number_of`].
#![tactic(auto)]

mod decision;
mod fields;
mod head;
mod head_ends;
mod laws;
mod lengths;
mod limits;
mod method;
mod named_fields;
mod query_text;
mod refusal;
mod request;
mod response;
mod target;

pub use decision::{Decision, first_request};
pub use head_ends::{head_end, without_breaks};
pub use laws::{head_is_the_grammars, limits_law};
pub use lengths::{is_coded, number_of, stated_length};
pub use limits::{BODY_LIMIT, DIGIT_LIMIT, FIELD_LIMIT, HEAD_LIMIT, LINE_LIMIT};
pub use method::{Method, method_of};
pub use named_fields::{is_same_name, only_value};
pub use query_text::{QuerySource, QueryText, query_of};
pub use refusal::Refusal;
pub use request::Request;
pub use response::{ResponseHead, append_head, append_response, total_len};
pub use target::{QUESTION_MARK, split_target};
