//! Responses as they are written. Where memory is refused the output stays as it was, and what was refused is asked once
//! more.

use http::StatusCode;
use http_messages::{ResponseHead, append_head, append_response};
use std::process::Abort;
use std::test::Fail;

const BEFORE: &[u8] = b"HTTP/1.1 200 OK\r\n\r\n";

const ROOT: &[u8; 32] = b"0123456789abcdef0123456789abcdef";

/// Every field.
const FULL: &[u8] = b"\
HTTP/1.1 405 Method Not Allowed\r\n\
Content-Type: text/html; charset=utf-8\r\n\
Content-Length: 11\r\n\
Osm-Root: 3031323334353637383961626364656630313233343536373839616263646566\r\n\
Allow: GET, POST\r\n\
Connection: close\r\n\
\r\n\
first, last";

/// No field that may be missing, and no body.
const BARE: &[u8] = b"\
HTTP/1.1 200 OK\r\n\
Content-Type: text/plain\r\n\
Content-Length: 0\r\n\
\r\n";

/// Appends a response with this head and body to another one.
fn appends(
    rt: &(impl Abort + AllocGlobal),
    head: &ResponseHead<'_>,
    body: &[&[u8]],
    wanted: &[u8],
) -> Result<(), Fail> {
    let alloc = rt.alloc();
    let mut output = BEFORE.to_vec(alloc)?;
    if append_response(alloc, &mut output, head, body).is_err() {
        assert!(rt; output.as_slice() == BEFORE);
        append_response(alloc, &mut output, head, body)?;
    }
    assert!(rt; output.strip_prefix(BEFORE) == Some(wanted));
    Ok(())
}

/// Appends this head, for a body of so many bytes, to another response.
fn appends_head(
    rt: &(impl Abort + AllocGlobal),
    head: &ResponseHead<'_>,
    body: &[u8],
    wanted: &[u8],
) -> Result<(), Fail> {
    let alloc = rt.alloc();
    let mut output = BEFORE.to_vec(alloc)?;
    if append_head(alloc, &mut output, head, body.len()).is_err() {
        assert!(rt; output.as_slice() == BEFORE);
        append_head(alloc, &mut output, head, body.len())?;
    }
    assert!(rt; output.strip_prefix(BEFORE) == wanted.strip_suffix(body));
    Ok(())
}

#[test]
fn responses_are_appended_or_memory_is_refused(rt: HostRuntime) -> Result<(), Fail> {
    let full = ResponseHead {
        status: StatusCode::METHOD_NOT_ALLOWED,
        content_type: "text/html; charset=utf-8",
        root: Some(ROOT),
        allow: Some("GET, POST"),
        closes: true,
    };
    let bare = ResponseHead {
        status: StatusCode::OK,
        content_type: "text/plain",
        root: None,
        allow: None,
        closes: false,
    };
    appends(&rt, &full, &[b"first", b"", b", last"], FULL)?;
    appends(&rt, &bare, &[], BARE)?;
    appends_head(&rt, &full, b"first, last", FULL)?;
    appends_head(&rt, &bare, b"", BARE)
}
