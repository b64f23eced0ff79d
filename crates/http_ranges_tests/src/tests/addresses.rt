//! Places, and what asks for a range.

use http_ranges::{Address, ByteRange, Target, range_request, read_target};
use std::test::Fail;

/// What a place of a server is: its name, its path, and whether it has a port.
fn parts(text: &str) -> Option<(&[u8], &[u8], bool)> {
    match read_target(text.as_bytes()) {
        Target::Http(address) => Some((address.host, address.path, address.has_port())),
        _ => None,
    }
}

#[test]
fn places(rt: HostRuntime) {
    for (text, host, path, has_port) in [
        ("http://a/b", "a", "/b", false),
        ("http://a:81/b/c?d=e&f", "a:81", "/b/c?d=e&f", true),
        ("http://[::1]/b", "[::1]", "/b", false),
        ("http://[::1]:8080/", "[::1]:8080", "/", true),
    ] {
        let found = parts(text);
        assert!(rt; found.is_some());
        if let Some((found_host, found_path, found_port)) = found {
            assert!(rt; found_host == host.as_bytes() && found_path == path.as_bytes());
            assert_eq!(rt; found_port, has_port);
        }
    }
}

#[test]
fn other_places(rt: HostRuntime) {
    for text in [
        "http://",
        "http://a",
        "http:///b",
        "http://a b/c",
        "http://a/b c",
        "http://a/b\r\nX: y",
        "http://a/b#c",
        "http://a@b/c",
        "http://a?b/c",
        "http://ä/b",
    ] {
        assert!(rt; matches!(read_target(text.as_bytes()), Target::Malformed));
    }
    assert!(rt; matches!(read_target(b"https://a/b"), Target::Tls));
    for text in ["a.pack", "/http://a/b", "HTTP://a/b", ""] {
        assert!(rt; matches!(read_target(text.as_bytes()), Target::File));
    }
}

#[test]
fn requests(rt: HostRuntime) -> Result<(), Fail> {
    let address = Address {
        host: b"a:81",
        path: b"/b?c",
    };
    let range = ByteRange {
        first: 7,
        last: 1234,
    };
    let request = range_request(rt.alloc(), &address, range)?;
    let right =
        "GET /b?c HTTP/1.1\r\nHost: a:81\r\nRange: bytes=7-1234\r\nAccept-Encoding: identity\r\n\r\n";
    assert!(rt; request.as_slice() == right.as_bytes());
    Ok(())
}
