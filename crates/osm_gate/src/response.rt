//! The responses that a gate gives.

ghost use Rattle.std.specs.Prelude.{◌≡◌, ◌++◌, OnOk, []};
ghost use Rattle.http_messages.specs.ResponseParts.{body_of};
ghost use Rattle.http_messages.specs.ResponseTexts.{response_text};
ghost use Rattle.osm_gate.specs.Responses.{content_type, not_allowed_response, ok_response, refusal};
ghost use Rattle.osm_gate.specs.internal.Heads.{head_bytes};

use crate::chunks::Chunks;
use http::StatusCode;
use http_messages::ResponseHead;
use std::alloc::AllocError;
use tree_node::Digest;

/// Appends a response of status 200. Out of memory the output stays as it was.
pub(crate) fn write_ok(
    output: &mut Chunks,
    closes: bool,
    root: &Digest,
    is_binary: bool,
    body: &[&[u8]],
) -> Result<(), AllocError>
    ensures { OnOk result (output.new ≡ output.old
        ++ response_text (ok_response closes root.now.0 is_binary (body_of body.now))) }
{
    let head = ResponseHead {
        status: StatusCode::OK,
        content_type: content_type(is_binary),
        root: Some(&root.0),
        allow: None,
        closes,
    };
    output.push_response(&head, body)
}

/// Appends the head of a response of status 200 whose body, which comes next, has so many bytes. Out of memory the output
/// stays as it was.
pub(crate) fn write_ok_head(
    output: &mut Chunks,
    closes: bool,
    root: &Digest,
    is_binary: bool,
    body_len: usize,
) -> Result<(), AllocError>
    ensures { OnOk result (output.new ≡ output.old
        ++ head_bytes (ok_response closes root.now.0 is_binary []).head body_len) }
{
    let head = ResponseHead {
        status: StatusCode::OK,
        content_type: content_type(is_binary),
        root: Some(&root.0),
        allow: None,
        closes,
    };
    output.push_head(&head, body_len)
}

/// Appends a refusal that says this. Out of memory the output stays as it was.
pub(crate) fn write_refusal(
    output: &mut Chunks,
    closes: bool,
    status: StatusCode,
    text: &str,
) -> Result<(), AllocError>
    ensures { OnOk result (output.new ≡ output.old
        ++ response_text (refusal closes status text.now)) }
{
    let head = ResponseHead {
        status,
        content_type: content_type(false),
        root: None,
        allow: None,
        closes,
    };
    output.push_response(&head, &[text.as_bytes(), b"\n"])
}

/// Appends the refusal of a method, which names the methods that are allowed. Out of memory the output stays as it was.
pub(crate) fn write_not_allowed(
    output: &mut Chunks,
    closes: bool,
    methods: &str,
) -> Result<(), AllocError>
    ensures { OnOk result (output.new ≡ output.old
        ++ response_text (not_allowed_response closes methods.now)) }
{
    let head = ResponseHead {
        status: StatusCode::METHOD_NOT_ALLOWED,
        content_type: content_type(false),
        root: None,
        allow: Some(methods),
        closes,
    };
    output.push_response(&head, &[b"method not allowed\n"])
}

fn content_type(is_binary: bool) -> &'static str
    ensures { result.now ≡ content_type is_binary }
{
    if is_binary {
        "application/octet-stream"
    } else {
        "text/plain; charset=utf-8"
    }
}
