//! Mirrors that fail or lie.

use super::scene::{Scene, Then};
use super::{DOCUMENT, Honest, OTHER_SET, POST, QUERY, SET, got, honest_mirror, tells};
use std::process::Abort;
use std::test::Fail;

/// What the client gets where the mirror sends this, and then does that.
fn sent(
    rt: &(impl Abort + AllocGlobal),
    mirror: &Honest,
    sends: &[u8],
    then: Then,
) -> Result<Vec<u8>, Fail> {
    let mut scene = Scene::new(rt.alloc(), POST, 50)?;
    scene.add(&mirror.request, sends, then)?;
    got(rt, &mirror.root, &mut scene)
}

/// Each fault of a mirror's bytes, as its text says it.
#[test]
fn tells_faults_of_replies(rt: HostRuntime) -> Result<(), Fail> {
    let mirror = honest_mirror(&rt, SET, QUERY)?;
    let rows: [(&[u8], Then, &[u8]); 11] = [
        (
            b"",
            Then::Closes,
            b": the mirror closed the connection early </p>\n",
        ),
        (b"", Then::Stalls, b": the mirror went silent </p>\n"),
        (b"", Then::Breaks, b": the mirror went silent </p>\n"),
        (
            b"hello\r\n\r\n",
            Then::Stalls,
            b": the mirror's response has no valid head </p>\n",
        ),
        (
            b"HTTP/1.1 400 Bad Request\r\nContent-Length: 0\r\n\r\n",
            Then::Stalls,
            b": the mirror answered with status 400 </p>\n",
        ),
        (
            b"HTTP/1.1 504 Gateway Timeout\r\nContent-Length: 0\r\n\r\n",
            Then::Stalls,
            b": the mirror answered with status 504 </p>\n",
        ),
        (
            b"HTTP/1.1 200 OK\r\n\r\n",
            Then::Stalls,
            b": the mirror's response doesn't say how long it is </p>\n",
        ),
        (
            b"HTTP/1.1 200 OK\r\nContent-Length: 268435457\r\n\r\n",
            Then::Stalls,
            b": the mirror's response is too long </p>\n",
        ),
        (
            b"HTTP/1.1 200 OK\r\nContent-Length: 39\r\n\r\n",
            Then::Stalls,
            b": the mirror's response has another form </p>\n",
        ),
        (
            b"HTTP/1.1 200 OK\r\nContent-Length: 268435456\r\n\r\n0",
            Then::Closes,
            b": the mirror closed the connection early </p>\n",
        ),
        (
            b"HTTP/1.1 200 OK\r\nContent-Length: 268435456\r\n\r\n0",
            Then::Breaks,
            b": the mirror went silent </p>\n",
        ),
    ];
    for (sends, then, error) in rows {
        let response = sent(&rt, &mirror, sends, then)?;
        assert!(rt;
            tells(&response, b"HTTP/1.1 502 Bad Gateway\r\n", error),
            "{error:?}"
        );
    }
    Ok(())
}

#[test]
fn tells_that_none_is_reached(rt: HostRuntime) -> Result<(), Fail> {
    let mirror = honest_mirror(&rt, SET, QUERY)?;
    for is_away in [true, false] {
        let mut scene = Scene::new(rt.alloc(), POST, 50)?;
        scene.add(&mirror.request, b"", Then::Closes)?;
        for play in &mut scene.plays {
            play.is_away = is_away;
            play.is_deaf = true;
        }
        let response = got(&rt, &mirror.root, &mut scene)?;
        assert!(rt;
            tells(
                &response,
                b"HTTP/1.1 502 Bad Gateway\r\n",
                b": the mirror can't be reached </p>\n"
            )
        );
    }
    let mut scene = Scene::new(rt.alloc(), POST, 50)?;
    let response = got(&rt, &mirror.root, &mut scene)?;
    assert!(rt;
        tells(
            &response,
            b"HTTP/1.1 502 Bad Gateway\r\n",
            b": the mirror can't be reached </p>\n"
        )
    );
    Ok(())
}

/// A mirror with other objects, and one whose proof is cut.
#[test]
fn refuses_lies(rt: HostRuntime) -> Result<(), Fail> {
    let mirror = honest_mirror(&rt, SET, QUERY)?;
    let other = honest_mirror(&rt, OTHER_SET, QUERY)?;
    let response = sent(&rt, &mirror, &other.response, Then::Closes)?;
    assert!(rt;
        tells(
            &response,
            b"HTTP/1.1 502 Bad Gateway\r\n",
            b": the mirror answers under another root </p>\n"
        )
    );
    let mut spoiled = mirror.response.as_slice().to_vec(rt.alloc())?;
    if let Some(last) = spoiled.last_mut() {
        *last ^= 1;
    }
    let response = sent(&rt, &mirror, &spoiled, Then::Closes)?;
    assert!(rt;
        tells(
            &response,
            b"HTTP/1.1 502 Bad Gateway\r\n",
            b": the mirror's proof is refused: C"
        )
    );
    Ok(())
}

/// Bytes after the length don't matter, and neither does a mirror that stays open.
#[test]
fn takes_what_is_whole(rt: HostRuntime) -> Result<(), Fail> {
    let mirror = honest_mirror(&rt, SET, QUERY)?;
    let mut longer = mirror.response.as_slice().to_vec(rt.alloc())?;
    longer.extend_from_slice(b"HTTP/1.1 500 No\r\n\r\n")?;
    for then in [Then::Closes, Then::Stalls, Then::Breaks] {
        let response = sent(&rt, &mirror, &longer, then)?;
        assert!(rt; response.ends_with(DOCUMENT));
    }
    Ok(())
}

/// The next mirror is asked where one fails, and the last one's fault is told.
#[test]
fn asks_the_next(rt: HostRuntime) -> Result<(), Fail> {
    let mirror = honest_mirror(&rt, SET, QUERY)?;
    let mut scene = Scene::new(rt.alloc(), POST, 50)?;
    scene.add(&mirror.request, b"hello\r\n\r\n", Then::Closes)?;
    scene.add(&mirror.request, b"", Then::Stalls)?;
    scene.add(&mirror.request, &mirror.response, Then::Closes)?;
    scene.add(&mirror.request, b"", Then::Breaks)?;
    assert!(rt; got(&rt, &mirror.root, &mut scene)?.ends_with(DOCUMENT));
    assert_eq!(rt; scene.dials, 3);
    let mut scene = Scene::new(rt.alloc(), POST, 50)?;
    scene.add(&mirror.request, b"hello\r\n\r\n", Then::Closes)?;
    scene.add(&mirror.request, b"", Then::Closes)?;
    let response = got(&rt, &mirror.root, &mut scene)?;
    assert!(rt;
        tells(
            &response,
            b"HTTP/1.1 502 Bad Gateway\r\n",
            b": the mirror closed the connection early </p>\n"
        )
    );
    Ok(())
}
