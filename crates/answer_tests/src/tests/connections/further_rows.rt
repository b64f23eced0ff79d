//! Lengths and statuses beyond the rows of the independent program, as the profile states them.

use super::{Seen, fed};
use crate::tests::snapshot_of;
use crate::tests::texts_of_sets::ALL_KINDS;
use osm_index::{Edition, Snapshot};
use std::alloc::Global;
use std::process::Abort;
use std::test::Fail;

/// The status, the length of the body, and whether the connection is closed.
type Told = (&'static str, &'static str, bool);

/// Whether a response has this status and this length.
fn check_told(rt: &(impl Abort + AllocGlobal), got: &Seen, want: Told) -> Result<(), Fail> {
    let (status, length, closed) = want;
    let text = std::str::from_utf8(&got.responses)?;
    let line = format!(in rt.alloc(); "HTTP/1.1 {status}\r\n")?;
    assert!(rt; text.starts_with(line.as_str()), "{status}");
    let field = format!(in rt.alloc(); "\r\nContent-Length: {length}\r\n")?;
    assert!(rt; text.contains(field.as_str()), "{status} {length}");
    assert_eq!(rt; got.closed, closed, "{status}");
    Ok(())
}

/// A POST with this body.
fn posted(alloc: Global, snapshot: &Snapshot, path: &str, body: &[u8]) -> Result<Seen, Fail> {
    let len = body.len();
    let head = format!(in alloc; "POST {path} HTTP/1.1\r\nContent-Length: {len}\r\n\r\n")?;
    fed(alloc, snapshot, head.as_bytes(), body)
}

#[test]
fn bodies_have_their_responses(rt: HostRuntime) -> Result<(), Fail> {
    let alloc = rt.alloc();
    let snapshot = snapshot_of(alloc, ALL_KINDS, Edition::Two { sequence: 0 })?;
    let mut long = Vec::new(alloc);
    long.resize(65_537, b'a')?;
    for (body, want, told) in [
        (
            b"node[~\"a\"~\"b\"];out;".as_slice(),
            ("400 Bad Request", "10", false),
            "\r\n\r\nQ7 byte 5\n",
        ),
        (
            long.as_slice(),
            ("400 Bad Request", "14", false),
            "\r\n\r\nQ9 byte 65536\n",
        ),
        (b"node(1);out ids;", ("200 OK", "3", false), "\r\n\r\nn1\n"),
        (
            b"data=node%281%29%3Bout+ids%3B",
            ("200 OK", "3", false),
            "\r\n\r\nn1\n",
        ),
        // A `%` that stands for itself is decoded once.
        (
            b"data=node%5B%22highway%22%3D%22%2541%22%5D%3Bout%3B",
            ("200 OK", "0", false),
            "\r\n\r\n",
        ),
    ] {
        let got = posted(alloc, &snapshot, "/api/interpreter", body)?;
        check_told(&rt, &got, want)?;
        assert!(rt;
            got.responses.as_slice().ends_with(told.as_bytes()),
            "{told}"
        );
    }
    Ok(())
}

/// A body of the greatest length, of which the last byte is missing, has no response yet.
#[test]
fn the_longest_body_is_taken(rt: HostRuntime) -> Result<(), Fail> {
    let alloc = rt.alloc();
    let snapshot = snapshot_of(alloc, "", Edition::One)?;
    let head = b"POST /api/interpreter HTTP/1.1\r\nContent-Length: 1048576\r\n\r\n";
    let mut body = Vec::new(alloc);
    body.resize(1_048_575, b' ')?;
    let got = fed(alloc, &snapshot, head, &body)?;
    assert_eq!(rt; got.responses.len(), 0);
    assert_eq!(rt; got.left.len(), head.len().saturating_add(body.len()));
    body.push(b' ')?;
    let got = fed(alloc, &snapshot, head, &body)?;
    check_told(&rt, &got, ("400 Bad Request", "14", false))?;
    assert_eq!(rt; got.left.len(), 0);
    Ok(())
}

/// The root, the length of an empty answer, and the proof of two nodes.
#[test]
fn checked_answers_have_their_lengths(rt: HostRuntime) -> Result<(), Fail> {
    let alloc = rt.alloc();
    for (edition, length) in [(Edition::One, "194"), (Edition::Two { sequence: 0 }, "202")] {
        let snapshot = snapshot_of(alloc, "", edition)?;
        let got = posted(alloc, &snapshot, "/api/checked", b"node(1);out;")?;
        let text = format!(in alloc; "\r\nContent-Length: {length}\r\n")?;
        let found = got
            .responses
            .windows(text.len().max(1))
            .any(|part| part == text.as_bytes());
        assert!(rt; found, "{length}");
    }
    Ok(())
}
