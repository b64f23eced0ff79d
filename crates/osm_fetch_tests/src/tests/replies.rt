//! What a reply shows.

use super::mirrors::{BY_TAG, QUERY, proved};
use mirror_answer::{MirrorFault, Shown, show};
use mirror_reply::Parts;
use osm_check::Why;
use osm_forms::Form;
use std::test::Fail;

#[test]
fn shows_within_memory(rt: HostRuntime) -> Result<(), Fail> {
    let alloc = rt.alloc();
    let right = proved(alloc, QUERY)?;
    let parts = Parts {
        root: &right.root.0,
        answer: b"",
        proof: &right.proof,
    };
    let shown = match show(alloc, Form::Opl, QUERY.as_bytes(), &right.root, parts, None) {
        Ok(shown) => shown,
        Err(_) => show(alloc, Form::Opl, QUERY.as_bytes(), &right.root, parts, None)?,
    };
    let Shown::Answer(text) = shown else {
        assert!(rt; false);
        return Ok(());
    };
    assert!(rt; text.as_slice() == right.answer.as_slice());
    Ok(())
}

/// A query that doesn't read isn't the mirror's fault, and a proof that shows nothing is told by the root that is named.
#[test]
fn shows_no_answer(rt: HostRuntime) -> Result<(), Fail> {
    let alloc = rt.alloc();
    let right = proved(alloc, QUERY)?;
    let other = [0; 32];
    for (query, named, fault) in [
        ("node(1)", right.root.0.as_slice(), None),
        (
            BY_TAG,
            right.root.0.as_slice(),
            Some(MirrorFault::Proof(Why::NodeMissing)),
        ),
        (BY_TAG, other.as_slice(), Some(MirrorFault::OtherRoot)),
    ] {
        let parts = Parts {
            root: named,
            answer: &right.answer,
            proof: &right.proof,
        };
        let told = match show(
            alloc,
            Form::Json,
            query.as_bytes(),
            &right.root,
            parts,
            None,
        )? {
            Shown::Refused(told) => Some(told),
            Shown::Unread(_) => None,
            Shown::Answer(_) => Some(MirrorFault::Unreached),
        };
        assert_eq!(rt; told, fault);
    }
    Ok(())
}
