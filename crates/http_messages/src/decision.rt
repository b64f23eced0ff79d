//! What the bytes of a connection begin with.

ghost use Rattle.std.specs.Prelude.{◌≡◌, ◌<◌, ◌≤◌, ◌+◌, ◌++◌, List, None, false, length, take, ℕ};
ghost use Rattle.http_messages.specs.HeadEnds.{begins_with_break, head_length, line_feeds};
ghost use Rattle.http_messages.specs.Heads.{head_of};
ghost use Rattle.http_messages.specs.Requests.{after_head, first_request};
ghost use Rattle.http_messages.specs.Decisions.{IfBodyOpen, OnHeadOpen, decided_of};
ghost use Rattle.http_messages.specs.declared.limits.TheConstants.{HEAD_LIMIT, LINE_LIMIT};

use crate::fields::{asks_close, body_len};
use crate::head::read_head;
use crate::head_ends::{count_line_feeds, head_end};
use crate::limits::{FIELD_LIMIT, HEAD_LIMIT, LINE_LIMIT};
use crate::refusal::Refusal;
use crate::request::Request;
use httparse::spans::EMPTY_HEADER_SPAN;

/// What the bytes of a connection begin with.
#[derive(Clone, Copy)]
pub enum Decision<'a> {
    /// Less than a head.
    HeadOpen,
    /// A head, and less than its body: nothing is decided as long as there are fewer bytes than needed.
    BodyOpen {
        /// How many bytes head and body have together.
        needed: usize,
    },
    /// A request that is refused.
    Refused {
        /// Why.
        refusal: Refusal,
        /// How many of the bytes it takes.
        used: usize,
    },
    /// A complete request.
    Complete {
        /// The request.
        request: Request<'a>,
        /// How many of the bytes it takes.
        used: usize,
    },
}

/// What the bytes begin with: a head of at most 8,192 bytes and 64 fields, and a body of at most 1,048,576 bytes. The first
/// `scanned` of them are known to hold no complete head, and are passed over. Linear; it takes no memory.
///
/// Source: RFC 9112, sections 2, 6 and 9; the limits and the order of the refusals are this project's.
pub fn first_request(bytes: &[u8], scanned: usize) -> Decision<'_>
    requires begins { begins_with_break bytes.now ≡ false }
    requires scanned { head_length (take scanned (take HEAD_LIMIT bytes.now)) ≡ None }
    ensures decided { decided_of result ≡ first_request bytes.now }
    ensures open { OnHeadOpen result (head_length (take HEAD_LIMIT bytes.now) ≡ None) }
    ensures waits { IfBodyOpen result (λ needed. (more : List ℕ)
        → length (bytes.now ++ more) < needed → first_request (bytes.now ++ more) ≡ None) }
    ensures missing { IfBodyOpen result (λ needed. (0 < length bytes.now)
        × (length bytes.now < needed)) }
{
    let Some(length) = head_end(window(bytes), scanned) else {
        if bytes.len() < HEAD_LIMIT {
            return Decision::HeadOpen;
        }
        return Decision::Refused {
            refusal: Refusal::HeadTooLarge,
            used: HEAD_LIMIT,
        };
    };
    let (head, after) = bytes.split_at(length);
    if count_line_feeds(head) > LINE_LIMIT {
        return Decision::Refused {
            refusal: Refusal::HeadTooLarge,
            used: length,
        };
    }
    decide_head(head, after)
}

/// The first bytes, within which the head must end.
fn window(bytes: &[u8]) -> &[u8]
    ensures { result.now ≡ take HEAD_LIMIT bytes.now }
{
    if bytes.len() <= HEAD_LIMIT {
        bytes
    } else {
        bytes.split_at(HEAD_LIMIT).0
    }
}

/// What is decided by a head and the bytes after it.
fn decide_head<'a>(head: &'a [u8], after: &'a [u8]) -> Decision<'a>
    requires begins { begins_with_break head.now ≡ false }
    requires lines { line_feeds head.now ≤ LINE_LIMIT }
    requires short { length head.now ≤ HEAD_LIMIT }
    ensures decided { decided_of result
        ≡ after_head (length head.now) after.now (head_of head.now) }
    ensures whole { OnHeadOpen result ⊥ }
    ensures waits { IfBodyOpen result (λ needed. (more : List ℕ)
        → length head.now + length (after.now ++ more) < needed
        → after_head (length head.now) (after.now ++ more) (head_of head.now) ≡ None) }
    ensures missing { IfBodyOpen result (λ needed. length head.now + length after.now < needed) }
{
    let used = head.len();
    let mut headers = [EMPTY_HEADER_SPAN; FIELD_LIMIT];
    let Some(spans) = read_head(head, &mut headers) else {
        return Decision::Refused {
            refusal: Refusal::BadHead,
            used,
        };
    };
    let (fields, _) = headers.split_at(spans.headers);
    let method = spans.method.of(head);
    let len = match body_len(head, fields, method) {
        Ok(len) => len,
        Err(refusal) => return Decision::Refused { refusal, used },
    };
    if after.len() < len {
        return Decision::BodyOpen { needed: used + len };
    }
    let (body, _) = after.split_at(len);
    Decision::Complete {
        request: Request {
            method,
            target: spans.path.of(head),
            body,
            closes: spans.version == 0 || asks_close(head, fields),
        },
        used: used + len,
    }
}
