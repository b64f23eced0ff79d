//! Memory that is refused. Run with each allocation refused in turn: the whole result, or out of memory and then the
//! whole result.

use super::scene::{Scene, Then};
use super::{DOCUMENT, Honest, POST, QUERY, SET, honest_mirror, tells};
use osm_relay::{RelayFault, relay_many, starved_response};
use std::process::Abort;
use std::test::Fail;

/// The client got its document, or that memory ran out, or why the mirror gave no answer; else it wasn't answered.
fn relay_one(rt: &(impl Abort + AllocGlobal), mirror: &Honest) -> Result<(), Fail> {
    let mut scene = Scene::new(rt.alloc(), POST, 400)?;
    scene.add(&mirror.request, &mirror.response, Then::Closes)?;
    let mut root = mirror.root;
    match relay_many(rt.alloc(), &mut root, &mut scene, 1, None) {
        Ok(()) => {}
        Err(fault) => assert!(rt; fault == RelayFault::Memory || fault == RelayFault::Device),
    }
    for gone in &scene.gone {
        let got = gone.got.as_slice();
        // A line of the scene that has no memory breaks.
        assert!(rt;
            !gone.whole
                || got.ends_with(DOCUMENT)
                || got == starved_response()
                || tells(got, b"HTTP/1.1 502 Bad Gateway\r\n", b": the mirror ")
        );
    }
    Ok(())
}

#[test]
fn relays_within_memory(rt: HostRuntime) -> Result<(), Fail> {
    let mirror = honest_mirror(&rt, SET, QUERY)?;
    relay_one(&rt, &mirror)?;
    relay_one(&rt, &mirror)
}
