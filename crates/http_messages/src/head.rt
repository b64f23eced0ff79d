//! The head of a request, as httparse reads it.

ghost use Rattle.std.specs.Prelude.{◌≡◌, ◌≤◌, IfNone, IfSome, None, Some, false, length};
ghost use Rattle.httparse.specs.Grammar.{RequestHead};
ghost use Rattle.httparse.specs.Spans.{IsRequestAt, IsRequestWithin};
ghost use Rattle.http_messages.specs.HeadEnds.{begins_with_break, line_feeds};
ghost use Rattle.http_messages.specs.Heads.{head_of};
ghost use Rattle.http_messages.specs.declared.limits.TheConstants.{FIELD_LIMIT, LINE_LIMIT};

use httparse::Status;
use httparse::spans::{HeaderSpan, RequestSpans, parse_request};

/// Where the parts of the head stand in these bytes, which are one complete head and nothing else; none where
/// they are no such head. Where each field stands is written into `headers`.
pub(crate) fn read_head(head: &[u8], headers: &mut [HeaderSpan]) -> Option<RequestSpans>
    requires begins { begins_with_break head.now ≡ false }
    requires lines { line_feeds head.now ≤ LINE_LIMIT }
    requires room { FIELD_LIMIT ≤ length headers.old }
    ensures within { IfSome result (λ spans. IsRequestWithin head.now headers.new spans
        × (spans.len ≡ length head.now)) }
    ensures none { IfNone result (head_of head.now ≡ None) }
    ensures some { IfSome result (λ spans. (h : RequestHead) × (head_of head.now ≡ Some h)
        × IsRequestAt head.now headers.new spans h) }
{
    let Ok(Status::Complete(found)) = parse_request(head, headers) else {
        return None;
    };
    if found.len == head.len() {
        Some(found)
    } else {
        None
    }
}
