//! The head of a response.

ghost use Rattle.std.specs.Prelude.{◌≡◌, ◌≢◌, ◌≤◌, ◌<◌, ◌^◌, ◌++◌, List, ℕ, IfNone, IfSome, Some, length};
ghost use Rattle.httparse.specs.Grammar.{ResponseHead, status_code};
ghost use Rattle.httparse.specs.Spans.{IsResponseWithin};
ghost use Rattle.http_messages.specs.HeadEnds.{begins_with_break};
ghost use Rattle.mirror_reply.specs.Heads.{fields_of, head_end};
ghost use Rattle.mirror_reply.specs.Lengths.{told_length};
ghost use Rattle.mirror_reply.specs.Standings.{text_len};
ghost use Rattle.mirror_reply.specs.declared.limits.TheConstants.{FIELD_LIMIT, HEAD_LIMIT};
ghost use Rattle.mirror_reply.specs.internal.Heads.{HasNone, IsHead, IsReadAs};
ghost use Rattle.mirror_reply.specs.internal.Stages.{IsStage};

use crate::fields::body_len;
use crate::limits::{FIELD_LIMIT, PREFIX_SIZE, TEXT_LIMIT};
use crate::reply_fault::ReplyFault;
use crate::stage::Stage;
use httparse::Status;
use httparse::spans::{EMPTY_HEADER_SPAN, HeaderSpan, ResponseSpans, parse_response};

/// What a response says whose bytes these are, up to the first empty line and with it.
pub(crate) fn read_stage(head: &[u8], limit: u64) -> Stage
    requires { length head.now ≤ HEAD_LIMIT }
    ensures stage { (after : List ℕ) → head_end (head.now ++ after) ≡ Some (length head.now)
        → IsStage limit (head.now ++ after) result }
    ensures complete { result ≢ Stage.Head }
{
    let mut headers = [EMPTY_HEADER_SPAN; FIELD_LIMIT];
    let Some(found) = read_head(head, &mut headers) else {
        return Stage::Failed(ReplyFault::BadHead);
    };
    let (fields, _) = headers.split_at(found.headers);
    let len = body_len(head, fields);
    stage_after(head, found.code, len, limit)
}

/// Where the parts of the head are in these bytes, which are a head and nothing else; `None` where they are no head.
/// Where its fields are is written into `headers`.
fn read_head(head: &[u8], headers: &mut [HeaderSpan]) -> Option<ResponseSpans>
    requires room { length headers.old ≡ FIELD_LIMIT }
    ensures within { IfSome result (λ spans. IsResponseWithin head.now headers.new spans × (spans.len ≡ length head.now)) }
    ensures none { IfNone result (HasNone head.now) }
    ensures some { IfSome result (IsReadAs head.now headers.new) }
{
    if begins_with_break(head) {
        return None;
    }
    let Ok(Status::Complete(found)) = parse_response(head, headers) else {
        return None;
    };
    if found.len == head.len() {
        Some(found)
    } else {
        None
    }
}

fn begins_with_break(bytes: &[u8]) -> bool
    ensures { result ≡ begins_with_break bytes.now }
{
    matches!(bytes, [b'\r' | b'\n', ..])
}

/// What a head says that has this status, and tells this length of its body.
fn stage_after(head: &[u8], status: u16, len: Option<u64>, limit: u64) -> Stage
    requires says { (h : ResponseHead) × IsHead head.now h × (status ≡ status_code h) × (len ≡ told_length (fields_of h)) }
    requires small { IfSome len (λ n. n < 10 ^ 19) }
    requires short { length head.now ≤ HEAD_LIMIT }
    ensures stage { (after : List ℕ) → IsStage limit (head.now ++ after) result }
    ensures complete { result ≢ Stage.Head }
{
    let start = head.len();
    if status != 200 {
        let end = start + text_len(len);
        return Stage::Text { status, start, end };
    }
    let Some(size) = len else {
        return Stage::Failed(ReplyFault::BadLength);
    };
    if size > limit {
        return Stage::Failed(ReplyFault::TooLong);
    }
    if size < PREFIX_SIZE as u64 {
        return Stage::Failed(ReplyFault::BadBody);
    }
    Stage::Body {
        start,
        end: start + size as usize,
    }
}

/// How many bytes of the text are kept.
fn text_len(len: Option<u64>) -> usize
    ensures told { result ≡ text_len len }
    ensures bound { result ≤ 200 }
{
    match len {
        Some(len) => len.min(TEXT_LIMIT) as usize,
        None => TEXT_LIMIT as usize,
    }
}
