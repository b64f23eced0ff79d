//! What a server's response is refused for.

use crate::tests::files::ADDRESS;
use crate::tests::script::Script;
use http_ranges::{HttpFile, NotGiven};
use node_pack::ReadAt;
use std::alloc::{AllocError, Global};
use std::cell::Cell;
use std::process::Abort;
use std::test::Fail;

/// What a response is refused for that comes byte by byte, whose bytes these are, and that goes on with so many bytes of a field that doesn't end.
fn refusal(alloc: Global, text: &str, more: usize) -> Result<Option<NotGiven>, AllocError> {
    let given = given(alloc, text, more)?;
    let reason = Cell::new(None);
    let opened = Cell::new(0);
    let script = Script::new(&given, 1, 100_000, &opened);
    let mut file = HttpFile::new(alloc, script, ADDRESS, 1_000_000, &reason);
    match file.size() {
        Ok(_) => Ok(None),
        Err(_) => Ok(reason.get()),
    }
}

fn given(alloc: Global, text: &str, more: usize) -> Result<Vec<Vec<Vec<u8>>>, AllocError> {
    let mut bytes = Vec::new(alloc);
    bytes.extend_from_slice(text.as_bytes())?;
    for _ in 0..more {
        bytes.push(b'a')?;
    }
    let mut texts = Vec::new(alloc);
    texts.push(bytes)?;
    let mut all = Vec::new(alloc);
    all.push(texts)?;
    Ok(all)
}

/// Checks that the response is refused for this, or taken.
fn check(
    rt: &impl Abort,
    alloc: Global,
    text: &str,
    why: Option<NotGiven>,
) -> Result<(), AllocError> {
    let found = refusal(alloc, text, 0)?;
    assert_eq!(rt; found, why, "{text}");
    Ok(())
}

#[test]
fn statuses(rt: HostRuntime) -> Result<(), Fail> {
    check(
        &rt,
        rt.alloc(),
        "HTTP/1.1 404 Not Found\r\n\r\n",
        Some(NotGiven::Absent),
    )?;
    check(
        &rt,
        rt.alloc(),
        "HTTP/1.1 410 Gone\r\n\r\n",
        Some(NotGiven::Absent),
    )?;
    check(
        &rt,
        rt.alloc(),
        "HTTP/1.1 301 Moved\r\nLocation: /b\r\n\r\n",
        Some(NotGiven::Redirected(301)),
    )?;
    check(
        &rt,
        rt.alloc(),
        "HTTP/1.1 304 Not Modified\r\n\r\n",
        Some(NotGiven::Redirected(304)),
    )?;
    check(
        &rt,
        rt.alloc(),
        "HTTP/1.1 200 OK\r\nContent-Length: 3\r\n\r\nabc",
        Some(NotGiven::NoRanges),
    )?;
    check(
        &rt,
        rt.alloc(),
        "HTTP/1.1 416 Range Not Satisfiable\r\n\r\n",
        Some(NotGiven::Status(416)),
    )?;
    check(
        &rt,
        rt.alloc(),
        "HTTP/1.1 500 Error\r\n\r\n",
        Some(NotGiven::Status(500)),
    )?;
    Ok(())
}

#[test]
fn ranges(rt: HostRuntime) -> Result<(), Fail> {
    let head = "HTTP/1.1 206 Partial Content\r\n";
    for (fields, why) in [
        (
            "Content-Range: bytes 0-2/3\r\nContent-Length: 3\r\n\r\nabc",
            None,
        ),
        (
            "content-range: bytes 0-2/3\r\ncontent-length: 3\r\n\r\nabc",
            None,
        ),
        (
            "Content-Range: bytes 1-2/3\r\nContent-Length: 2\r\n\r\nbc",
            Some(NotGiven::Malformed),
        ),
        (
            "Content-Range: bytes 0-1/3\r\nContent-Length: 2\r\n\r\nab",
            Some(NotGiven::Malformed),
        ),
        (
            "Content-Range: bytes 0-2/*\r\nContent-Length: 3\r\n\r\nabc",
            Some(NotGiven::Malformed),
        ),
        (
            "Content-Range: bytes 0-2/3\r\nContent-Length: 4\r\n\r\nabcd",
            Some(NotGiven::Malformed),
        ),
        (
            "Content-Range: bytes 0-2/3\r\n\r\nabc",
            Some(NotGiven::Malformed),
        ),
        ("Content-Length: 3\r\n\r\nabc", Some(NotGiven::Malformed)),
        (
            "Content-Range: bytes 0-2/3\r\nTransfer-Encoding: chunked\r\nContent-Length: 3\r\n\r\nabc",
            Some(NotGiven::Malformed),
        ),
        (
            "Content-Range: bytes 0-2/3\r\nContent-Encoding: gzip\r\nContent-Length: 3\r\n\r\nabc",
            Some(NotGiven::Malformed),
        ),
        (
            "Content-Range: bytes 0-2/3\r\nContent-Length: 3\r\n\r\nab",
            Some(NotGiven::ClosedEarly),
        ),
    ] {
        let mut text = String::from_str(rt.alloc(), head)?;
        text.push_str(fields)?;
        check(&rt, rt.alloc(), &text, why)?;
    }
    Ok(())
}

#[test]
fn heads(rt: HostRuntime) -> Result<(), Fail> {
    check(&rt, rt.alloc(), "", Some(NotGiven::Unanswered))?;
    check(&rt, rt.alloc(), "HTTP/1.1 206", Some(NotGiven::ClosedEarly))?;
    check(
        &rt,
        rt.alloc(),
        "garbage\r\n\r\n",
        Some(NotGiven::Malformed),
    )?;
    let part =
        "HTTP/1.1 206 Partial Content\r\nContent-Range: bytes 0-0/1\r\nContent-Length: 1\r\n\r\na";
    for (count, why) in [(4u32, None), (5, Some(NotGiven::Malformed))] {
        let mut text = String::new(rt.alloc());
        for _ in 0..count {
            text.push_str("HTTP/1.1 103 Early Hints\r\n\r\n")?;
        }
        text.push_str(part)?;
        check(&rt, rt.alloc(), &text, why)?;
    }
    let endless = refusal(rt.alloc(), "HTTP/1.1 206 Partial Content\r\nA: ", 9000)?;
    assert_eq!(rt; endless, Some(NotGiven::HeadTooLong));
    Ok(())
}
