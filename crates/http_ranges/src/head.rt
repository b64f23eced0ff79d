//! The head of a response, as httparse reads it.

ghost use Rattle.std.specs.Prelude.{◌≡◌, IfNone, IfSome, length};
ghost use Rattle.httparse.specs.Spans.{IsResponseWithin};
ghost use Rattle.http_messages.specs.HeadEnds.{begins_with_break};
ghost use Rattle.http_ranges.specs.Heads.{HasNone};
ghost use Rattle.http_ranges.specs.internal.Told.{IsReadAs};
ghost use Rattle.http_ranges.specs.declared.limits.TheConstants.{FIELD_LIMIT};

use httparse::Status;
use httparse::spans::{HeaderSpan, ResponseSpans, parse_response};

/// Where the parts of the head are in these bytes, which are a head and nothing else; `None` where they are no head.
/// Where its fields are is written into `headers`.
pub(crate) fn read_head(head: &[u8], headers: &mut [HeaderSpan]) -> Option<ResponseSpans>
    requires room { length headers.old ≡ FIELD_LIMIT }
    ensures within { IfSome result
        (λ spans. IsResponseWithin head.now headers.new spans × (spans.len ≡ length head.now)) }
    ensures none { IfNone result (HasNone head.now) }
    ensures some { IfSome result (IsReadAs head.now headers.new) }
{
    if begins_with_break(head) {
        return None;
    }
    let Ok(Status::Complete(found)) = parse_response(head, headers) else {
        return None;
    };
    if found.len == head.len() {
        Some(found)
    } else {
        None
    }
}

fn begins_with_break(bytes: &[u8]) -> bool
    ensures { result ≡ begins_with_break bytes.now }
{
    matches!(bytes, [b'\r' | b'\n', ..])
}
