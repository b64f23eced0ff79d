//! Many clients at a time.

use super::scene::{Scene, Then};
use super::{DOCUMENT, POST, QUERY, SET, honest_mirror};
use osm_relay::relay_many;
use std::test::Fail;

/// 65 clients: 64 at a time at most, each with its own answer.
#[test]
fn answers_65(rt: HostRuntime) -> Result<(), Fail> {
    let mirror = honest_mirror(&rt, SET, QUERY)?;
    let mut scene = Scene::new(rt.alloc(), POST, 100)?;
    scene.add(&mirror.request, &mirror.response, Then::Closes)?;
    let mut root = mirror.root;
    relay_many(rt.alloc(), &mut root, &mut scene, 65, None)?;
    assert_eq!(rt; scene.most_open, 64);
    assert_eq!(rt; scene.gone.len(), 65);
    for gone in &scene.gone {
        assert!(rt;
            gone.whole && gone.got.ends_with(DOCUMENT),
            "{}",
            gone.number
        );
    }
    Ok(())
}
