//! What the fields of a head state of its body: lengths of 1 to 19 digits (RFC 9110, section 8.6), codings, and fields that
//! are only once there.

use http_messages::{is_coded, number_of, only_value, stated_length};
use httparse::Status;
use httparse::spans::{EMPTY_HEADER_SPAN, parse_response};
use std::process::Abort;

const ROWS: [(&[u8], Option<u64>); 9] = [
    (b"0", Some(0)),
    (b"007", Some(7)),
    (b"9999999999999999999", Some(9_999_999_999_999_999_999)),
    (b"00000000000000000000", None),
    (b"", None),
    (b"-1", None),
    (b"+1", None),
    (b"1 ", None),
    (b"1,1", None),
];

/// Heads, with the length that each states, whether its body is coded, and its only `Content-Range`.
const HEADS: [(&[u8], Option<u64>, bool, Option<&[u8]>); 8] = [
    (b"HTTP/1.1 200 OK\r\n\r\n", None, false, None),
    (
        b"HTTP/1.1 206 OK\r\nContent-Range: bytes 0-1/2\r\nContent-Length: 2\r\n\r\n",
        Some(2),
        false,
        Some(b"bytes 0-1/2"),
    ),
    (
        b"HTTP/1.1 206 OK\r\nCONTENT-LENGTH:\t10 \r\ncontent-range:\t a \t\r\n\r\n",
        Some(10),
        false,
        Some(b"a"),
    ),
    (
        b"HTTP/1.1 206 OK\r\nContent-Length: 2\r\nContent-Length: 2\r\nContent-Range: a\r\nContent-Range: a\r\n\r\n",
        None,
        false,
        None,
    ),
    (
        b"HTTP/1.1 200 OK\r\nContent-Length: 2x\r\nContent-Range:\r\n\r\n",
        None,
        false,
        Some(b""),
    ),
    (
        b"HTTP/1.1 200 OK\r\nContent-Length-: 2\r\nX-Content-Range: a\r\n\r\n",
        None,
        false,
        None,
    ),
    (
        b"HTTP/1.1 200 OK\r\nContent-Length: 2\r\nTransfer-Encoding: chunked\r\n\r\n",
        Some(2),
        true,
        None,
    ),
    (
        b"HTTP/1.1 200 OK\r\nContent-Length: 2\r\ncontent-encoding: identity\r\n\r\n",
        Some(2),
        true,
        None,
    ),
];

#[test]
fn lengths_have_1_to_19_digits(rt: HostRuntime) {
    for (text, number) in &ROWS {
        assert_eq!(rt; number_of(text), *number);
    }
}

#[test]
fn fields_are_found_in_heads(rt: HostRuntime) {
    for (head, len, coded, range) in HEADS {
        let mut headers = [EMPTY_HEADER_SPAN; 4];
        let Ok(Status::Complete(found)) = parse_response(head, &mut headers) else {
            panic!(rt; "a head");
        };
        let (fields, _) = headers.split_at(found.headers);
        assert_eq!(rt; stated_length(head, fields), len);
        assert_eq!(rt; is_coded(head, fields), coded);
        assert_eq!(rt; only_value(head, fields, b"content-range"), range);
    }
}
