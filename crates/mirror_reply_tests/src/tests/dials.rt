//! Dials that a test plays.

use super::rows::{BODY, LIMIT, response};
use mirror_reply::{Dial, FetchFault, Receipt, Reply, ReplyFault, fetch_reply, is_host};
use std::alloc::Global;
use std::test::Fail;

/// A mirror that gives these bytes, and takes and gives some bytes a call.
#[derive(Drop)]
pub(super) struct FakeDial<'a> {
    pub(super) left: &'a [u8],
    pub(super) sent: Vec<u8>,
    pub(super) at_once: usize,
    /// The call that fails, from 1; none does where it is 0.
    pub(super) fails_at: usize,
    pub(super) calls: usize,
}

impl FakeDial<'_> {
    pub(super) fn new(alloc: Global, left: &[u8], at_once: usize, fails_at: usize) -> FakeDial<'_> {
        FakeDial {
            left,
            sent: Vec::new(alloc),
            at_once,
            fails_at,
            calls: 0,
        }
    }

    fn fails(&mut self) -> bool {
        self.calls = self.calls.saturating_add(1);
        self.calls == self.fails_at
    }
}

impl Dial for FakeDial<'_> {
    ghost use Rattle.std.specs.Prelude.{None};

    ghost log = { λ _. None };

    fn open(&mut self) -> bool {
        !self.fails()
    }

    fn send(&mut self, bytes: &[u8]) -> Option<usize> {
        if self.fails() {
            return None;
        }
        let len = self.at_once.min(bytes.len());
        self.sent.extend_from_slice(&bytes[..len]).ok()?;
        Some(len)
    }

    fn receive(&mut self, piece: &mut [u8]) -> Receipt {
        if self.fails() {
            return Receipt::Broken;
        }
        let len = self.at_once.min(self.left.len()).min(piece.len());
        if len == 0 {
            return Receipt::Ended;
        }
        let (now, left) = self.left.split_at(len);
        piece[..len].copy_from_slice(now);
        self.left = left;
        Receipt::Got(len)
    }
}

const HEAD: &[u8] = b"HTTP/1.1 200 OK\r\nContent-Length: 48\r\n\r\n";

#[test]
fn fetches(rt: HostRuntime) -> Result<(), Fail> {
    let host = "mirror";
    assert!(rt; is_host(host));
    let bytes = response(rt.alloc(), HEAD, BODY)?;
    for at_once in [1, 7, 1000] {
        let mut dial = FakeDial::new(rt.alloc(), &bytes, at_once, 0);
        let mut reply = Reply::new(rt.alloc(), LIMIT);
        fetch_reply(rt.alloc(), &mut dial, host, b"out;", &mut reply)?;
        assert_eq!(rt;
            dial.sent.as_slice(),
            b"POST /api/checked HTTP/1.1\r\nHost: mirror\r\nConnection: close\r\nContent-Type: text/plain; charset=utf-8\r\nContent-Length: 4\r\n\r\nout;".as_slice()
        );
        let answer = reply.parts().map(|parts| parts.answer);
        assert_eq!(rt; answer, Some(b"abc".as_slice()));
    }
    Ok(())
}

/// Each call fails in turn: the first opens the connection, 16 send the 127 bytes of the request, and 11 receive the
/// 87 bytes of the response.
#[test]
fn each_call_fails(rt: HostRuntime) -> Result<(), Fail> {
    let host = "mirror";
    assert!(rt; is_host(host));
    let bytes = response(rt.alloc(), HEAD, BODY)?;
    for call in 1..29 {
        let mut dial = FakeDial::new(rt.alloc(), &bytes, 8, call);
        let mut reply = Reply::new(rt.alloc(), LIMIT);
        let result = fetch_reply(rt.alloc(), &mut dial, host, b"out;", &mut reply);
        let fault = if call == 1 {
            FetchFault::Unreached
        } else {
            FetchFault::Silent
        };
        assert_eq!(rt; result, Err(fault), "call {call}");
        assert_eq!(rt; dial.calls, call);
        assert!(rt; reply.parts().is_none());
    }
    Ok(())
}

/// A dial that takes nothing, and mirrors that refuse or break off.
#[test]
fn no_reply(rt: HostRuntime) -> Result<(), Fail> {
    let refused = b"HTTP/1.1 400 Bad Request\r\nContent-Length: 10\r\n\r\nQ7 byte 5\n".as_slice();
    let rows = [
        (
            refused,
            8,
            FetchFault::Reply(ReplyFault::BadStatus(400)),
            b"Q7 byte 5\n".as_slice(),
        ),
        (
            HEAD,
            8,
            FetchFault::Reply(ReplyFault::ClosedEarly),
            b"".as_slice(),
        ),
        (
            b"".as_slice(),
            8,
            FetchFault::Reply(ReplyFault::ClosedEarly),
            b"".as_slice(),
        ),
        (HEAD, 0, FetchFault::Silent, b"".as_slice()),
    ];
    let host = "mirror";
    assert!(rt; is_host(host));
    for (bytes, at_once, fault, text) in rows {
        let mut dial = FakeDial::new(rt.alloc(), bytes, at_once, 0);
        let mut reply = Reply::new(rt.alloc(), LIMIT);
        let result = fetch_reply(rt.alloc(), &mut dial, host, b"out;", &mut reply);
        assert_eq!(rt; result, Err(fault));
        assert_eq!(rt; reply.text(), text);
    }
    Ok(())
}
