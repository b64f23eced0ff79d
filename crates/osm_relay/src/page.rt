//! Pages that tell an error.

ghost use Rattle.std.specs.Prelude.{◌≡◌, ◌++◌, IfOk, OnOk, option_map};
ghost use Rattle.osm_relay.specs.Pages.{error_response, escaped, escaped_byte, not_allowed_response, page_response};
ghost use Rattle.http_messages.specs.ResponseTexts.{response_text};

use crate::response::joined_response;
use http::StatusCode;
use http_messages::ResponseHead;
use std::alloc::{AllocError, Global};

/// What a page says before the text of its error, as an Overpass server does.
pub(crate) const PAGE_START: &[u8] =
    b"<?xml version=\"1.0\" encoding=\"UTF-8\"?>\n<!DOCTYPE html PUBLIC \"-//W3C//DTD XHTML 1.0 Strict//EN\"\n    \"http://www.w3.org/TR/xhtml1/DTD/xhtml1-strict.dtd\">\n<html xmlns=\"http://www.w3.org/1999/xhtml\" xml:lang=\"en\" lang=\"en\">\n<head>\n  <meta http-equiv=\"content-type\" content=\"text/html; charset=utf-8\" lang=\"en\"/>\n  <title>OSM3S Response</title>\n</head>\n<body>\n\n<p>The data included in this document is from www.openstreetmap.org. The data is made available under ODbL.</p>\n<p><strong style=\"color:#FF0000\">Error</strong>: ";

/// What it says after it.
pub(crate) const PAGE_END: &[u8] = b" </p>\n\n</body>\n</html>\n";

/// The response that tells this error, in one line.
pub(crate) fn error_response(
    alloc: Global,
    status: StatusCode,
    text: &[u8],
) -> Result<Vec<u8>, AllocError>
    ensures { IfOk result (λ response. response.items ≡ response_text (error_response status text.now)) }
{
    page_response(alloc, status, None, text)
}

/// The response to a method that isn't allowed: it names those that are.
pub(crate) fn not_allowed_response(alloc: Global, methods: &str) -> Result<Vec<u8>, AllocError>
    ensures { IfOk result (λ response. response.items ≡ response_text (not_allowed_response methods.now)) }
{
    let status = StatusCode::METHOD_NOT_ALLOWED;
    page_response(alloc, status, Some(methods), b"method not allowed")
}

#[tactic(auto, unfolding(crate::specs::Pages::page))]
fn page_response(
    alloc: Global,
    status: StatusCode,
    allow: Option<&str>,
    text: &[u8],
) -> Result<Vec<u8>, AllocError>
    ensures { IfOk result (λ response. response.items
        ≡ response_text (page_response status (option_map (λ methods. methods.now) allow.entry) text.now)) }
{
    let head = ResponseHead {
        status,
        content_type: "text/html; charset=utf-8",
        root: None,
        allow,
        closes: true,
    };
    let mut line = Vec::new(alloc);
    push_escaped(&mut line, text)?;
    joined_response(alloc, &head, PAGE_START, line.as_slice(), PAGE_END)
}

/// Appends a text as HTML writes it.
fn push_escaped(output: &mut Vec<u8>, text: &[u8]) -> Result<(), AllocError>
    ensures { OnOk result (output.new.items ≡ output.old.items ++ escaped text.now) }
{
    for byte in text {
        push_escaped_byte(output, *byte)?;
    }
    Ok(())
}

fn push_escaped_byte(output: &mut Vec<u8>, byte: u8) -> Result<(), AllocError>
    ensures { OnOk result (output.new.items ≡ output.old.items ++ escaped_byte byte) }
{
    match byte {
        b'&' => output.extend_from_slice(b"&amp;"),
        b'<' => output.extend_from_slice(b"&lt;"),
        b'>' => output.extend_from_slice(b"&gt;"),
        _ => output.extend_from_slice(&[byte]),
    }
}
