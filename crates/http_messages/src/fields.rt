//! What the fields of a head say of the body and of the connection.

ghost use Rattle.std.specs.Prelude.{◌≡◌, ◌≤◌, All, Err, IfOk, List, None, Ok, Some, codes, if◌then◌else◌, length, map, reverse, true, ℕ};
ghost use Rattle.httparse.specs.Grammar.{skip_ows, trim_ows};
ghost use Rattle.httparse.specs.Spans.{IsHeaderWithin, header_bytes};
ghost use Rattle.http_messages.specs.Fields.{asks_close, body_length, framing, length_of, lists_close, values_named};
ghost use Rattle.http_messages.specs.declared.limits.TheConstants.{BODY_LIMIT};

use crate::lengths::{is_length, parse_length};
use crate::limits::BODY_LIMIT;
use crate::named_fields::{has_field, is_same_name};
use crate::refusal::Refusal;
use httparse::is_space_or_tab;
use httparse::spans::HeaderSpan;

/// The length of the body (RFC 9112, section 6), or why the request is refused.
#[tactic(auto, unfolding(crate::specs::Fields::framing))]
pub(crate) fn body_len(head: &[u8], headers: &[HeaderSpan], method: &[u8]) -> Result<usize, Refusal>
    requires { All (IsHeaderWithin (length head.now)) headers.now }
    ensures framing { result ≡ framing method.now (map (header_bytes head.now) headers.now) }
    ensures bound { IfOk result (λ len. len ≤ BODY_LIMIT) }
{
    if has_field(head, headers, b"transfer-encoding") {
        return Err(Refusal::TransferCoding);
    }
    match content_length(head, headers) {
        Err(refusal) => Err(refusal),
        Ok(None) if method == b"POST".as_slice() => Err(Refusal::LengthRequired),
        Ok(None) => Ok(0),
        Ok(Some(length)) if length > BODY_LIMIT => Err(Refusal::TooLarge),
        Ok(Some(length)) => Ok(length as usize),
    }
}

/// The number that the field `Content-Length` gives; none where there is no such field.
fn content_length(head: &[u8], headers: &[HeaderSpan]) -> Result<Option<u64>, Refusal>
    requires { All (IsHeaderWithin (length head.now)) headers.now }
    ensures { result ≡ length_of (values_named (codes "content-length")
        (map (header_bytes head.now) headers.now)) }
{
    let mut found: Option<&[u8]> = None;
    for header in headers {
        if is_same_name(header.name.of(head), b"content-length") {
            if found.is_some() {
                return Err(Refusal::BadLength);
            }
            found = Some(header.value.of(head));
        }
    }
    let Some(value) = found else {
        return Ok(None);
    };
    if !is_length(value) {
        return Err(Refusal::BadLength);
    }
    Ok(Some(parse_length(value)))
}

/// Whether a field asks for the end of the connection (RFC 9112, section 9.6).
#[tactic(auto, unfolding(crate::specs::Fields::asks_close))]
pub(crate) fn asks_close(head: &[u8], headers: &[HeaderSpan]) -> bool
    requires { All (IsHeaderWithin (length head.now)) headers.now }
    ensures { result ≡ asks_close (map (header_bytes head.now) headers.now) }
{
    for header in headers {
        if is_same_name(header.name.of(head), b"connection") && lists_close(header.value.of(head)) {
            return true;
        }
    }
    false
}

/// Whether one of the tokens between commas is `close`.
fn lists_close(value: &[u8]) -> bool
    ensures { result ≡ lists_close value.now }
{
    value
        .split(|byte| *byte == b',')
        .any(|token| is_same_name(trimmed(token), b"close"))
}

/// The bytes without the spaces and tabs around them.
#[tactic(auto, unfolding(httparse::specs::Grammar::trim_ows))]
fn trimmed(bytes: &[u8]) -> &[u8]
    ensures { result.now ≡ trim_ows bytes.now }
{
    trim_end(trim_start(bytes))
}

fn trim_start(mut bytes: &[u8]) -> &[u8]
    ensures { result.now ≡ skip_ows bytes.now }
{
    while let [first, rest @ ..] = bytes
        && is_space_or_tab(*first)
    {
        bytes = rest;
    }
    bytes
}

fn trim_end(mut bytes: &[u8]) -> &[u8]
    ensures { result.now ≡ reverse (skip_ows (reverse bytes.now)) }
{
    while let [rest @ .., last] = bytes
        && is_space_or_tab(*last)
    {
        bytes = rest;
    }
    bytes
}
