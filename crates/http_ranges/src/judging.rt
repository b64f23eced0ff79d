//! What a response is worth to who asked for a range.

ghost use Rattle.std.specs.Prelude.{◌≡◌, ◌<◌, ◌^◌, All, IfSome, length, map};
ghost use Rattle.httparse.specs.Spans.{IsHeaderWithin, header_bytes};
ghost use Rattle.http_ranges.specs.Heads.{IsJudged};
ghost use Rattle.http_ranges.specs.Judgements.{by_part, covers, differs, judged, refusal_of, stated_range};

use crate::byte_range::ByteRange;
use crate::content_range::{ContentRange, read_content_range};
use crate::fields::says_close;
use crate::head::read_head;
use crate::limits::FIELD_LIMIT;
use crate::not_given::NotGiven;
use http_messages::{is_coded, only_value, stated_length};
use httparse::spans::{EMPTY_HEADER_SPAN, HeaderSpan};

/// A response that has the range that was asked for.
#[derive(Clone, Copy, Debug, PartialEq, Eq)]
pub struct Given {
    /// How many bytes the file has.
    pub size: u64,
    /// How many bytes the body has.
    pub len: u64,
    /// Whether the connection is closed after it.
    pub closes: bool,
}

/// What a response is worth.
#[derive(Clone, Copy, Debug, PartialEq, Eq)]
pub enum Judgement {
    /// Another response comes after it.
    Interim,
    /// It has what was asked for.
    Given(Given),
    /// It hasn't.
    Refused(NotGiven),
}

/// What a response is worth to who asked for this range of a file, by its head, which ends with an empty line. The file has
/// this size, if it is known; the range may go on after its end. It takes no memory.
pub fn judge_head(head: &[u8], asked: ByteRange, size: Option<u64>) -> Judgement
    ensures { IsJudged head.now asked size result }
{
    let mut headers = [EMPTY_HEADER_SPAN; FIELD_LIMIT];
    let Some(found) = read_head(head, &mut headers) else {
        return Judgement::Refused(NotGiven::Malformed);
    };
    let (fields, _) = headers.split_at(found.headers);
    judge(head, fields, found.version, found.code, asked, size)
}

/// The same, of a head with these fields.
#[tactic(auto, unfolding(crate::specs::Judgements::judged))]
fn judge(
    head: &[u8],
    headers: &[HeaderSpan],
    minor: u8,
    status: u16,
    asked: ByteRange,
    size: Option<u64>,
) -> Judgement
    requires { All (IsHeaderWithin (length head.now)) headers.now }
    ensures { result ≡ judged asked size minor status (map (header_bytes head.now) headers.now) }
{
    if status == 206 {
        let closes = minor == 0 || says_close(head, headers);
        return judge_part(head, headers, closes, asked, size);
    }
    if status >= 100 && status < 200 {
        return Judgement::Interim;
    }
    Judgement::Refused(refusal_of(status))
}

/// What a status other than 206 says.
fn refusal_of(status: u16) -> NotGiven
    ensures { result ≡ refusal_of status }
{
    if status == 404 || status == 410 {
        NotGiven::Absent
    } else if status >= 300 && status < 400 {
        NotGiven::Redirected(status)
    } else if status == 200 {
        NotGiven::NoRanges
    } else {
        NotGiven::Status(status)
    }
}

/// What a response with a part of the file is worth.
#[tactic(auto, unfolding(crate::specs::Judgements::by_part))]
fn judge_part(
    head: &[u8],
    headers: &[HeaderSpan],
    closes: bool,
    asked: ByteRange,
    size: Option<u64>,
) -> Judgement
    requires { All (IsHeaderWithin (length head.now)) headers.now }
    ensures { result ≡ by_part asked size closes (map (header_bytes head.now) headers.now) }
{
    if is_coded(head, headers) {
        return Judgement::Refused(NotGiven::Malformed);
    }
    let Some(range) = stated_range(head, headers) else {
        return Judgement::Refused(NotGiven::Malformed);
    };
    if differs(size, range.size) {
        return Judgement::Refused(NotGiven::Changed);
    }
    let Some(len) = stated_length(head, headers) else {
        return Judgement::Refused(NotGiven::Malformed);
    };
    if covers(asked, range) && len == range.last.saturating_sub(range.first).saturating_add(1) {
        Judgement::Given(Given {
            size: range.size,
            len,
            closes,
        })
    } else {
        Judgement::Refused(NotGiven::Malformed)
    }
}

/// The range that the only field `Content-Range` says.
fn stated_range(head: &[u8], headers: &[HeaderSpan]) -> Option<ContentRange>
    requires { All (IsHeaderWithin (length head.now)) headers.now }
    ensures { result ≡ stated_range (map (header_bytes head.now) headers.now) }
{
    read_content_range(only_value(head, headers, b"content-range")?)
}

/// Whether the file is known to have another size.
fn differs(known: Option<u64>, size: u64) -> bool
    ensures { result ≡ differs known size }
{
    match known {
        Some(known) => known != size,
        None => false,
    }
}

/// Whether the range is the one that was asked for, as far as the file has it.
fn covers(asked: ByteRange, range: ContentRange) -> bool
    ensures { result ≡ covers asked range }
{
    range.first == asked.first
        && range.last == asked.last.min(range.size.saturating_sub(1))
        && range.last < range.size
        && range.first <= range.last
}
