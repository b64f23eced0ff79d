//! Requests of all kinds.

use super::scene::{Scene, Then};
use super::{DOCUMENT, POST, QUERY, SET, contains, got, honest_mirror, relayed, tells};
use std::process::Abort;
use std::test::Fail;
use tree_node::Digest;

#[test]
fn answers_a_query(rt: HostRuntime) -> Result<(), Fail> {
    for step in [1, 7, 100_000] {
        let response = relayed(&rt, POST, QUERY, step)?;
        assert!(rt;
            response.starts_with(
                b"HTTP/1.1 200 OK\r\nContent-Type: application/json\r\nContent-Length: 95\r\nOsm-Root: "
            )
        );
        assert!(rt; response.ends_with(DOCUMENT));
        assert!(rt; contains(&response, b"\r\nConnection: close\r\n\r\n"));
    }
    Ok(())
}

/// The three ways in which clients send a query, and what comes after the request.
#[test]
fn takes_queries_in_each_form(rt: HostRuntime) -> Result<(), Fail> {
    let form =
        b"POST /api/interpreter HTTP/1.1\r\nContent-Length: 39\r\n\r\ndata=%5Bout%3Ajson%5D%3Bnode(1)%3Bout;";
    assert!(rt; !form.is_empty());
    let texts: [&[u8]; 3] = [
        b"GET /api/interpreter?data=%5Bout%3Ajson%5D%3Bnode(1)%3Bout%3B HTTP/1.1\r\n\r\n",
        b"\r\n\r\nPOST /api/interpreter HTTP/1.0\r\nContent-Length: 23\r\n\r\n[out:json];node(1);out;GET /x HTTP/1.1\r\n\r\n",
        b"POST /api/interpreter HTTP/1.1\r\nContent-Length: 38\r\n\r\ndata=%5Bout:json%5D%3Bnode(1)%3Bout%3B",
    ];
    for text in texts {
        let response = relayed(&rt, text, QUERY, 11)?;
        assert!(rt; response.ends_with(DOCUMENT));
    }
    Ok(())
}

/// XML where the query doesn't say, and as it says.
#[test]
fn answers_in_xml(rt: HostRuntime) -> Result<(), Fail> {
    let document =
        b"<?xml version=\"1.0\" encoding=\"UTF-8\"?>\n<osm version=\"0.6\" generator=\"osm_mirror\">\n<node id=\"2\"></node>\n</osm>\n";
    let plain = b"POST /api/interpreter HTTP/1.1\r\nContent-Length: 16\r\n\r\nnode(2);out ids;";
    let response = relayed(&rt, plain, b"node(2);out ids;", 100)?;
    assert!(rt; response.ends_with(document));
    assert!(rt; contains(&response, b"\r\nContent-Type: application/osm3s+xml\r\n"));
    let asked =
        b"POST /api/interpreter HTTP/1.1\r\nContent-Length: 27\r\n\r\n[out:xml];node(2);out ids;\n";
    let response = relayed(&rt, asked, b"[out:xml];node(2);out ids;\n", 100)?;
    assert!(rt; response.ends_with(document));
    Ok(())
}

/// What a client that sends this gets where no mirror may be asked.
fn alone(rt: &(impl Abort + AllocGlobal), text: &[u8]) -> Result<Vec<u8>, Fail> {
    let mut scene = Scene::new(rt.alloc(), text, 13)?;
    scene.add(b"", b"", Then::Closes)?;
    let response = got(rt, &Digest([7; 32]), &mut scene)?;
    assert_eq!(rt; scene.dials, 0);
    Ok(response)
}

/// Each request that no mirror is asked for: its status, and its error.
#[test]
fn refuses_without_a_mirror(rt: HostRuntime) -> Result<(), Fail> {
    let rows: [(&[u8], &[u8], &[u8]); 9] = [
        (
            b"hello\r\n\r\n",
            b"HTTP/1.1 400 Bad Request\r\n",
            b">Error</strong>: bad head </p>\n",
        ),
        (
            b"GET /x HTTP/1.1\r\n\r\n",
            b"HTTP/1.1 404 Not Found\r\n",
            b">Error</strong>: not found </p>\n",
        ),
        (
            b"HEAD /api/status HTTP/1.1\r\n\r\n",
            b"HTTP/1.1 405 Method Not Allowed\r\n",
            b"\r\nAllow: GET\r\n",
        ),
        (
            b"PUT /api/interpreter HTTP/1.1\r\n\r\n",
            b"HTTP/1.1 405 Method Not Allowed\r\n",
            b"\r\nAllow: GET, POST\r\n",
        ),
        (
            b"GET /api/interpreter HTTP/1.1\r\n\r\n",
            b"HTTP/1.1 400 Bad Request\r\n",
            b">Error</strong>: no data </p>\n",
        ),
        (
            b"POST /api/interpreter HTTP/1.1\r\n\r\n",
            b"HTTP/1.1 411 Length Required\r\n",
            b">Error</strong>: length required </p>\n",
        ),
        (
            b"POST /api/interpreter HTTP/1.1\r\nContent-Length: 1048577\r\n\r\n",
            b"HTTP/1.1 413 ",
            b">Error</strong>: too large </p>\n",
        ),
        (
            b"POST /api/interpreter HTTP/1.1\r\nContent-Length: 5\r\n\r\nnode(",
            b"HTTP/1.1 400 Bad Request\r\n",
            b">Error</strong>: Q11 byte 5 </p>\n",
        ),
        (
            b"POST /api/interpreter HTTP/1.1\r\nContent-Length: 18\r\n\r\nnode(1);out count;",
            b"HTTP/1.1 400 Bad Request\r\n",
            b">Error</strong>: Q7 byte 12 </p>\n",
        ),
    ];
    for (text, status, error) in rows {
        let response = alone(&rt, text)?;
        assert!(rt; tells(&response, status, error), "{text:?}");
        assert!(rt; contains(&response, b"\r\nConnection: close\r\n\r\n"));
        assert!(rt; contains(&response, b"\r\nContent-Type: text/html; charset=utf-8\r\n"));
    }
    Ok(())
}

#[test]
fn tells_free_slots(rt: HostRuntime) -> Result<(), Fail> {
    let response = alone(&rt, b"GET /api/status HTTP/1.1\r\n\r\n")?;
    assert!(rt;
        response.starts_with(b"HTTP/1.1 200 OK\r\nContent-Type: text/plain; charset=utf-8\r\n")
    );
    assert!(rt;
        response.ends_with(
            b"\r\n\r\nConnected as: 0\nCurrent time: 1970-01-01T00:00:00Z\nAnnounced endpoint: none\nRate limit: 1\n1 slots available now.\nCurrently running queries (pid, space limit, time limit, start time):\n"
        )
    );
    Ok(())
}

/// A client that is gone before its request is complete gets nothing.
#[test]
fn says_nothing_to_the_gone(rt: HostRuntime) -> Result<(), Fail> {
    let mirror = honest_mirror(&rt, SET, QUERY)?;
    for then in [Then::Closes, Then::Stalls, Then::Breaks] {
        let mut scene = Scene::new(rt.alloc(), b"GET /api", 3)?;
        scene.then(then);
        let mut root = mirror.root;
        osm_relay::relay_many(rt.alloc(), &mut root, &mut scene, 1, None)?;
        for gone in &scene.gone {
            assert!(rt; gone.got.is_empty() && !gone.whole);
        }
        assert_eq!(rt; scene.gone.len(), 1);
    }
    Ok(())
}
