//! The request, byte for byte.

use mirror_reply::{is_host, write_request};
use std::test::Fail;

/// What RFC 9112 wants of a POST that carries a query of 12 bytes.
#[test]
fn writes_the_request(rt: HostRuntime) -> Result<(), Fail> {
    let host = "mirror.example:8080";
    assert!(rt; is_host(host));
    let mut output = Vec::new(rt.alloc());
    output.push(b'>')?;
    write_request(rt.alloc(), &mut output, host, b"node(1);out;")?;
    assert_eq!(rt;
        output.as_slice(),
        b">POST /api/checked HTTP/1.1\r\nHost: mirror.example:8080\r\nConnection: close\r\nContent-Type: text/plain; charset=utf-8\r\nContent-Length: 12\r\n\r\nnode(1);out;".as_slice()
    );
    Ok(())
}

#[test]
fn names_of_hosts(rt: HostRuntime) {
    for (text, is) in [
        ("127.0.0.1:8080", true),
        ("[::1]:80", true),
        ("", false),
        ("a b", false),
        ("a\r\nX: y", false),
        ("a\u{7f}", false),
        ("\u{e9}", false),
    ] {
        assert_eq!(rt; is_host(text), is, "{text:?}");
    }
}
