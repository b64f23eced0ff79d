//! Every row, however its bytes are cut.

use super::rows::{End, ROWS, Row, Sent};
use super::{LATER_ROOT, ROOT, ROOT_OF_NONE, Seen, checked, fed, fed_bytewise};
use crate::tests::snapshot_of;
use crate::tests::texts_of_sets::ALL_KINDS;
use http_messages::head_end;
use osm_index::{Edition, Snapshot};
use std::alloc::Global;
use std::process::Abort;
use std::test::Fail;

/// The bytes that are sent.
fn bytes_of(alloc: Global, sent: Sent) -> Result<Vec<u8>, Fail> {
    let mut bytes = Vec::new(alloc);
    match sent {
        Sent::Text(text) => bytes.extend_from_slice(text.as_bytes())?,
        Sent::Letters(count) => bytes.resize(count, b'a')?,
        Sent::Fields(count) => {
            bytes.extend_from_slice(b"GET /api/root HTTP/1.1\r\n")?;
            for number in 0..count {
                let field = format!(in alloc; "F{number}: x\r\n")?;
                bytes.extend_from_slice(field.as_bytes())?;
            }
            bytes.extend_from_slice(b"\r\n")?;
        }
        Sent::LongHead(len) => {
            bytes.extend_from_slice(b"GET /api/root HTTP/1.1\r\nA: ")?;
            bytes.resize(len.saturating_sub(4), b'b')?;
            bytes.extend_from_slice(b"\r\n\r\n")?;
        }
    }
    Ok(bytes)
}

/// The responses with this root.
fn filled(alloc: Global, responses: &[&str], root: &str) -> Result<Vec<u8>, Fail> {
    let mut filled = Vec::new(alloc);
    for response in responses {
        let mut first = true;
        for part in response.split("{root}") {
            if !first {
                filled.extend_from_slice(root.as_bytes())?;
            }
            filled.extend_from_slice(part.as_bytes())?;
            first = false;
        }
    }
    Ok(filled)
}

/// Whether a connection came to this.
fn check_fed(rt: &(impl Abort + AllocGlobal), got: &Seen, responses: &[u8], left: &[u8], end: End) {
    assert_eq!(rt; got.responses.as_slice(), responses);
    assert_eq!(rt; got.left.as_slice(), left);
    assert_eq!(rt; got.closed, end == End::Closed);
}

/// Whether these bytes come to this, fed whole, byte by byte, and in every two pieces; in some two pieces where there are
/// thousands of bytes, among them those that are cut near the end.
fn check_cuts(
    rt: &(impl Abort + AllocGlobal),
    snapshot: &Snapshot,
    bytes: &[u8],
    responses: &[u8],
    end: End,
) -> Result<(), Fail> {
    let alloc = rt.alloc();
    let left = if end == End::Waiting { bytes } else { b"" };
    let got = fed_bytewise(alloc, snapshot, bytes)?;
    check_fed(rt, &got, responses, left, end);
    for cut in 0..=bytes.len() {
        let (first, second) = bytes.split_at(cut);
        if bytes.len() > 4096 && second.len() > 8 && cut % 61 > 0 {
            continue;
        }
        let got = fed(alloc, snapshot, first, second)?;
        check_fed(rt, &got, responses, left, end);
    }
    Ok(())
}

fn check_row(
    rt: &(impl Abort + AllocGlobal),
    row: &Row,
    snapshot: &Snapshot,
    responses: &[&str],
    root: &str,
) -> Result<(), Fail> {
    let bytes = bytes_of(rt.alloc(), row.sent)?;
    let want = filled(rt.alloc(), responses, root)?;
    check_cuts(rt, snapshot, &bytes, &want, row.end)
}

#[test]
fn responses_are_those_of_the_rows(rt: HostRuntime) -> Result<(), Fail> {
    for (set, edition, root) in [
        (ALL_KINDS, Edition::One, ROOT),
        (ALL_KINDS, Edition::Two { sequence: 0 }, LATER_ROOT),
        ("", Edition::One, ROOT_OF_NONE),
    ] {
        let snapshot = snapshot_of(rt.alloc(), set, edition)?;
        check_rows(&rt, &snapshot, set.is_empty(), root)?;
    }
    Ok(())
}

/// Whether each row comes to its responses over a snapshot of the set with all kinds, or of the empty one, with this root.
fn check_rows(
    rt: &(impl Abort + AllocGlobal),
    snapshot: &Snapshot,
    is_empty: bool,
    root: &str,
) -> Result<(), Fail> {
    for row in &ROWS {
        let responses = match is_empty {
            true => row.over_none,
            false => row.over_all_kinds,
        };
        check_row(rt, row, snapshot, responses, root)?;
    }
    Ok(())
}

#[test]
fn answers_come_with_their_proofs(rt: HostRuntime) -> Result<(), Fail> {
    let alloc = rt.alloc();
    for (set, edition, want) in [
        (ALL_KINDS, Edition::One, checked::OVER_ALL_KINDS),
        (
            ALL_KINDS,
            Edition::Two { sequence: 0 },
            checked::OVER_ALL_KINDS_LATER,
        ),
        ("", Edition::One, checked::OVER_NONE),
    ] {
        let snapshot = snapshot_of(alloc, set, edition)?;
        let whole = fed(alloc, &snapshot, checked::SENT.as_bytes(), b"")?;
        let got = hex::encode(alloc, &whole.responses)?;
        assert_eq!(rt; got.as_str(), want);
        check_cuts(
            &rt,
            &snapshot,
            checked::SENT.as_bytes(),
            &whole.responses,
            End::Open,
        )?;
    }
    Ok(())
}

/// A line feed alone ends a line too.
#[test]
fn heads_end_with_an_empty_line(rt: HostRuntime) -> Result<(), Fail> {
    let two_lines = b"GET / HTTP/1.1\r\nHost: a\r\n\r\nGET";
    assert_eq!(rt; head_end(two_lines, 0), Some(27));
    assert_eq!(rt; head_end(b"GET / HTTP/1.1\n\n", 0), Some(16));
    assert_eq!(rt; head_end(b"GET / HTTP/1.1\r\nHost: a\r\n", 0), None);
    Ok(())
}
