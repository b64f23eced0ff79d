//! What responses say: honest ones, and those of a mirror that lies.

use super::rows::{BODY, Says, check, check_once, response};
use mirror_reply::ReplyFault;
use std::test::Fail;

/// Heads before the same body of 48 bytes, and what each says.
#[test]
fn heads_say(rt: HostRuntime) -> Result<(), Fail> {
    let whole = Says::Reply(b"abc", b"proof");
    let bad_head = Says::Fault(ReplyFault::BadHead, b"");
    let bad_length = Says::Fault(ReplyFault::BadLength, b"");
    let rows: [(&[u8], Says<'_>); 20] = [
        // As a mirror writes it.
        (
            b"HTTP/1.1 200 OK\r\nContent-Type: application/octet-stream\r\nContent-Length: 48\r\nOsm-Root: 5252525252525252525252525252525252525252525252525252525252525252\r\nConnection: close\r\n\r\n",
            whole,
        ),
        (b"HTTP/1.0 200\ncontent-LENGTH:48\n\n", whole),
        (
            b"HTTP/1.1 200 OK\r\nContent-Length:\t0000000000000000048 \r\n\r\n",
            whole,
        ),
        (
            b"HTTP/1.1 200 OK\r\nContent-Length: 00000000000000000048\r\n\r\n",
            bad_length,
        ),
        (
            b"HTTP/1.1 200 OK\r\nContent-Length: +48\r\n\r\n",
            bad_length,
        ),
        (
            b"HTTP/1.1 200 OK\r\nContent-Length: 4 8\r\n\r\n",
            bad_length,
        ),
        (b"HTTP/1.1 200 OK\r\nContent-Length:\r\n\r\n", bad_length),
        (
            b"HTTP/1.1 200 OK\r\nContent-Length: 48\r\nContent-Length: 48\r\n\r\n",
            bad_length,
        ),
        (
            b"HTTP/1.1 200 OK\r\nContent-Length: 48, 48\r\n\r\n",
            bad_length,
        ),
        (b"HTTP/1.1 200 OK\r\n\r\n", bad_length),
        (
            b"HTTP/1.1 200 OK\r\nContent-Length: 48\r\ntransfer-encoding: chunked\r\n\r\n",
            bad_length,
        ),
        (
            b"HTTP/1.1 200 OK\r\nContent-Length: 48\r\nContent-Encoding: gzip\r\n\r\n",
            bad_length,
        ),
        (
            b"HTTP/1.1 200 OK\r\nContent-Length: 51\r\n\r\n",
            Says::Fault(ReplyFault::TooLong, b""),
        ),
        (
            b"HTTP/1.1 200 OK\r\nContent-Length: 50\r\n\r\n",
            Says::FaultAtEnd(ReplyFault::ClosedEarly, b""),
        ),
        (
            b"HTTP/1.1 200 OK\r\nContent-Length: 39\r\n\r\n",
            Says::Fault(ReplyFault::BadBody, b""),
        ),
        (
            b"HTTP/1.1 200 OK\r\nContent-Length: 42\r\n\r\n",
            Says::Fault(ReplyFault::BadBody, b""),
        ),
        (
            b"\r\nHTTP/1.1 200 OK\r\nContent-Length: 48\r\n\r\n",
            bad_head,
        ),
        (b"HTTP/2 200 OK\r\nContent-Length: 48\r\n\r\n", bad_head),
        (
            b"HTTP/1.1 200 OK\r\nContent-Length: 48\r\n folded\r\n\r\n",
            bad_head,
        ),
        (b"hello\r\n\r\n", bad_head),
    ];
    for (head, says) in rows {
        check(&rt, response(rt.alloc(), head, BODY)?.as_slice(), says)?;
    }
    Ok(())
}

/// Whole responses of a mirror that lies, or breaks off.
#[test]
fn lies_say(rt: HostRuntime) -> Result<(), Fail> {
    let rows: [(&[u8], Says<'_>); 14] = [
        (
            b"HTTP/1.1 500 Oops\r\nContent-Length: 3\r\n\r\nno\n",
            Says::Fault(ReplyFault::BadStatus(500), b"no\n"),
        ),
        (
            b"HTTP/1.1 400 Bad\r\nContent-Length: 10\r\n\r\nQ7 byte 5\n and more",
            Says::Fault(ReplyFault::BadStatus(400), b"Q7 byte 5\n"),
        ),
        (
            b"HTTP/1.1 302 Found\r\nLocation: http://127.0.0.1/\r\nContent-Length: 0\r\n\r\n",
            Says::Fault(ReplyFault::BadStatus(302), b""),
        ),
        (
            b"HTTP/1.1 100 Continue\r\n\r\nHTTP",
            Says::FaultAtEnd(ReplyFault::BadStatus(100), b"HTTP"),
        ),
        (
            b"HTTP/1.1 404 Not Found\r\nTransfer-Encoding: chunked\r\n\r\n0\r\n\r\n",
            Says::FaultAtEnd(ReplyFault::BadStatus(404), b"0\r\n\r\n"),
        ),
        (b"hello\r\n\r\nthere", Says::Fault(ReplyFault::BadHead, b"")),
        (b"", Says::FaultAtEnd(ReplyFault::ClosedEarly, b"")),
        (
            b"HTTP/1.1 200 OK\r\nContent-Length: 48\r\n",
            Says::FaultAtEnd(ReplyFault::ClosedEarly, b""),
        ),
        (
            b"HTTP/1.1 200 OK\r\nContent-Length: 20\r\n\r\nRRRRRRRRRRRRRRRRRRRR",
            Says::Fault(ReplyFault::BadBody, b""),
        ),
        (
            b"HTTP/1.1 200 OK\r\nContent-Length: 48\r\n\r\nRRRRRRRRRRRRRRRRRRRRRRRRRRRRRRRR\x80\0\0\0\0\0\0\0",
            Says::Fault(ReplyFault::BadBody, b""),
        ),
        (
            b"HTTP/1.1 200 OK\r\nContent-Length: 48\r\n\r\nRRRRRRRRRRRRRRRRRRRRRRRRRRRRRRRR\0\0\0\0\0\0\0\x09abcproo",
            Says::Fault(ReplyFault::BadBody, b""),
        ),
        (
            b"HTTP/1.1 200 OK\r\nContent-Length: 48\r\n\r\nRRRRRRRRRRRRRRRRRRRRRRRRRRRRRRRR\0\0\0\0\0\0\0\x08abcproofxxxx",
            Says::Reply(b"abcproof", b""),
        ),
        (
            b"HTTP/1.1 200 OK\r\nContent-Length: 40\r\n\r\nRRRRRRRRRRRRRRRRRRRRRRRRRRRRRRRR\0\0\0\0\0\0\0\0xxxx",
            Says::Reply(b"", b""),
        ),
        (
            b"HTTP/1.1 200 OK\r\nContent-Length: 48\r\n\r\nRRRRRRRRRRRRRRRRRRRRRRRRRRRRRRRR\0\0\0\0\0\0\0\x03abcproo",
            Says::FaultAtEnd(ReplyFault::ClosedEarly, b""),
        ),
    ];
    for (bytes, says) in rows {
        check(&rt, bytes, says)?;
    }
    Ok(())
}

/// A head of so many bytes, whose last field is as long as needed.
fn long_head(rt: &impl AllocGlobal, len: usize) -> Result<Vec<u8>, Fail> {
    let mut head = response(
        rt.alloc(),
        b"HTTP/1.1 200 OK\r\nContent-Length: 48\r\nX: ",
        b"",
    )?;
    for _ in 0..len.saturating_sub(head.len()).saturating_sub(4) {
        head.push(b'x')?;
    }
    head.extend_from_slice(b"\r\n\r\n")?;
    Ok(head)
}

/// Heads at the limits: 8,192 bytes and 64 fields are taken, and no more.
#[test]
fn limits_of_heads(rt: HostRuntime) -> Result<(), Fail> {
    for (len, says) in [
        (8192, Says::Reply(b"abc".as_slice(), b"proof".as_slice())),
        (8193, Says::Fault(ReplyFault::BadHead, b"")),
    ] {
        let head = long_head(&rt, len)?;
        check_once(&rt, response(rt.alloc(), &head, BODY)?.as_slice(), says)?;
    }
    for (fields, says) in [
        (63, Says::Reply(b"abc".as_slice(), b"proof".as_slice())),
        (64, Says::Fault(ReplyFault::BadHead, b"")),
    ] {
        let mut head = response(
            rt.alloc(),
            b"HTTP/1.1 200 OK\r\nContent-Length: 48\r\n",
            b"",
        )?;
        for _ in 0..fields {
            head.extend_from_slice(b"a:\r\n")?;
        }
        head.extend_from_slice(b"\r\n")?;
        check_once(&rt, response(rt.alloc(), &head, BODY)?.as_slice(), says)?;
    }
    Ok(())
}

/// At most 200 bytes of a mirror's text are kept.
#[test]
fn long_texts_are_cut(rt: HostRuntime) -> Result<(), Fail> {
    let mut bytes = response(rt.alloc(), b"HTTP/1.1 503 Busy\r\n\r\n", b"")?;
    for _ in 0..300 {
        bytes.push(b'x')?;
    }
    let text = [b'x'; 200];
    check(&rt, &bytes, Says::Fault(ReplyFault::BadStatus(503), &text))
}
