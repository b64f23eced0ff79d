//! Responses as they are written.

ghost use Rattle.std.specs.Prelude.{◌≡◌, ◌++◌, IfOk, IfSome, OnErr, OnOk, codes, length, option_map};
ghost use Rattle.std.specs.Fmt.{decimal};
ghost use Rattle.std.specs.String.{string_bytes};
ghost use Rattle.hex.specs.Hex.{encode_lower};
ghost use Rattle.http.specs.StatusCode.{status_text};
ghost use Rattle.http_messages.specs.ResponseParts.{body_of, parts_of, response_of};
ghost use Rattle.http_messages.specs.ResponseTexts.{close_if, field_if, field_line, head_text, line_end, response_text};

use http::StatusCode;
use std::alloc::{AllocError, Global};

/// What the head of a response says, but for the length of the body.
#[derive(Clone, Copy)]
pub struct ResponseHead<'a> {
    /// The status.
    pub status: StatusCode,
    /// The media type of the body, as the field `Content-Type` names it.
    pub content_type: &'a str,
    /// The 32 bytes of the root that the body belongs to: the field `Osm-Root`, in hexadecimal digits.
    pub root: Option<&'a [u8; 32]>,
    /// The methods that are allowed: the field `Allow`.
    pub allow: Option<&'a str>,
    /// The connection ends after this response: the field `Connection`.
    pub closes: bool,
}

/// Appends a response with this head, whose body is made of these parts, one after the other.
///
/// Room for the whole response is made once, before anything is written, and each part is copied once. It is refused only
/// where memory runs out, or where the response would have more bytes than a `usize` counts; the output then stays as it
/// was.
///
/// Source: RFC 9112, sections 2.1, 4 and 5; which fields there are, and their order, is this project's.
#[tactic(auto, unfolding(crate::specs::ResponseTexts::response_text))]
pub fn append_response(
    alloc: Global,
    output: &mut Vec<u8>,
    head: &ResponseHead<'_>,
    body: &[&[u8]],
) -> Result<(), AllocError>
    ensures text { OnOk result (output.new.items ≡ output.old.items
        ++ response_text (response_of head.now body.now)) }
    ensures refused { OnErr result (output.new.items ≡ output.old.items) }
{
    let Some(body_len) = total_len(body) else {
        return Err(AllocError);
    };
    let text = head_text(alloc, head, body_len)?;
    let Some(len) = body_len.checked_add(text.len()) else {
        return Err(AllocError);
    };
    output.reserve(len)?;
    output.extend_from_slice(text.as_bytes()).unwrap();
    for part in body {
        output.extend_from_slice(part).unwrap();
    }
    Ok(())
}

/// Appends the head of a response whose body has this many bytes: the status line, the fields and the empty line. The body
/// comes after it, which the caller may hand on without a copy.
///
/// It is refused only where memory runs out; the output then stays as it was.
///
/// Source: that of [`append_response`].
pub fn append_head(
    alloc: Global,
    output: &mut Vec<u8>,
    head: &ResponseHead<'_>,
    body_len: usize,
) -> Result<(), AllocError>
    ensures text { OnOk result (output.new.items ≡ output.old.items
        ++ head_text (parts_of head.now) body_len) }
    ensures refused { OnErr result (output.new.items ≡ output.old.items) }
{
    let lines = head_text(alloc, head, body_len)?;
    output.extend_from_slice(lines.as_bytes())
}

/// The number of bytes of a body that is made of these parts; none where that is no `usize`. It takes no memory.
pub fn total_len(parts: &[&[u8]]) -> Option<usize>
    ensures { IfSome result (λ len. len ≡ length (body_of parts.now)) }
{
    let mut len: usize = 0;
    for part in parts {
        len = len.checked_add(part.len())?;
    }
    Some(len)
}

/// The status line, the fields and the empty line.
fn head_text(alloc: Global, head: &ResponseHead<'_>, body_len: usize) -> Result<String, AllocError>
    ensures { IfOk result (λ text. string_bytes text ≡ head_text (parts_of head.now) body_len) }
{
    let mut text = status_line(alloc, &head.status)?;
    push_field(&mut text, "Content-Type", head.content_type)?;
    let length = number_text(alloc, body_len)?;
    push_field(&mut text, "Content-Length", length.as_str())?;
    push_root(alloc, &mut text, head.root)?;
    push_allow(&mut text, head.allow)?;
    push_close(&mut text, head.closes)?;
    text.push_str("\r\n")?;
    Ok(text)
}

fn status_line(alloc: Global, status: &StatusCode) -> Result<String, AllocError>
    ensures { IfOk result (λ line. string_bytes line ≡ codes "HTTP/1.1 " ++ status_text status.now
        ++ line_end) }
{
    format!(in alloc; "HTTP/1.1 {status}\r\n")
}

fn number_text(alloc: Global, number: usize) -> Result<String, AllocError>
    ensures { IfOk result (λ text. string_bytes text ≡ decimal number) }
{
    format!(in alloc; "{number}")
}

fn push_root(alloc: Global, text: &mut String, root: Option<&[u8; 32]>) -> Result<(), AllocError>
    ensures { OnOk result (string_bytes text.new ≡ string_bytes text.old
        ++ field_if (codes "Osm-Root") (option_map encode_lower (option_map
        (λ root. root.now) root.entry))) }
{
    match root {
        None => Ok(()),
        Some(root) => {
            let digits = hex::encode(alloc, root)?;
            push_field(text, "Osm-Root", digits.as_str())
        }
    }
}

fn push_allow(text: &mut String, allow: Option<&str>) -> Result<(), AllocError>
    ensures { OnOk result (string_bytes text.new ≡ string_bytes text.old
        ++ field_if (codes "Allow") (option_map (λ allow. allow.now) allow.entry)) }
{
    match allow {
        None => Ok(()),
        Some(methods) => push_field(text, "Allow", methods),
    }
}

fn push_close(text: &mut String, closes: bool) -> Result<(), AllocError>
    ensures { OnOk result (string_bytes text.new ≡ string_bytes text.old ++ close_if closes) }
{
    if closes {
        push_field(text, "Connection", "close")
    } else {
        Ok(())
    }
}

fn push_field(text: &mut String, name: &str, value: &str) -> Result<(), AllocError>
    ensures { OnOk result (string_bytes text.new ≡ string_bytes text.old
        ++ field_line name.now value.now) }
{
    text.push_str(name)?;
    text.push_str(": ")?;
    text.push_str(value)?;
    text.push_str("\r\n")
}
