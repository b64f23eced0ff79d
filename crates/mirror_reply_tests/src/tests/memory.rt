//! Memory that is refused. Run with each allocation refused in turn: the whole result, or out of memory and then the
//! whole result.

use super::rows::{BODY, LIMIT};
use mirror_reply::{Progress, Reply, is_host, write_request};
use std::process::Abort;
use std::test::Fail;

const HEAD: &[u8] = b"HTTP/1.1 200 OK\r\nContent-Length: 48\r\n\r\n";

/// Takes a piece, and again if memory runs out.
fn take(rt: &impl Abort, reply: &mut Reply, piece: &[u8]) -> Result<Progress, Fail> {
    match reply.take(piece) {
        Ok(progress) => Ok(progress),
        Err(_) => {
            assert!(rt; reply.parts().is_none());
            Ok(reply.take(piece)?)
        }
    }
}

#[test]
fn takes_within_memory(rt: HostRuntime) -> Result<(), Fail> {
    let mut reply = Reply::new(rt.alloc(), LIMIT);
    assert_eq!(rt; take(&rt, &mut reply, &HEAD[..9])?, Progress::More);
    assert_eq!(rt; take(&rt, &mut reply, &HEAD[9..])?, Progress::More);
    assert_eq!(rt; take(&rt, &mut reply, &BODY[..40])?, Progress::More);
    assert_eq!(rt; take(&rt, &mut reply, &BODY[40..])?, Progress::Whole);
    assert_eq!(rt;
        reply.parts().map(|parts| parts.proof),
        Some(b"proof".as_slice())
    );
    Ok(())
}

#[test]
fn writes_within_memory(rt: HostRuntime) -> Result<(), Fail> {
    let host = "mirror";
    assert!(rt; is_host(host));
    let mut output = Vec::new(rt.alloc());
    if write_request(rt.alloc(), &mut output, host, b"out;").is_err() {
        assert!(rt; output.is_empty());
        write_request(rt.alloc(), &mut output, host, b"out;")?;
    }
    assert!(rt; output.ends_with(b"Content-Length: 4\r\n\r\nout;"));
    Ok(())
}
