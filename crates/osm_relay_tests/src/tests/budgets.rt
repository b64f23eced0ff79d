//! Budgets of the check of a proof.

use super::scene::{Scene, Then};
use super::{DOCUMENT, POST, QUERY, SET, got_within, honest_mirror, tells};
use std::test::Fail;

/// The work of the query, by hand. Seven steps of 100: the filter and the id that it reads, the candidate, the statement and
/// the node that it finds, the object that is printed, and the statement that prints it. And the 40 bytes of the object's
/// text in JSON: a comma, a line feed, and the 38 bytes of its line in the document.
const WORK: u64 = 740;

/// A budget that is the work gives the document. With one less each mirror is asked, and the client is told the last one's
/// fault.
#[test]
fn keeps_a_budget(rt: HostRuntime) -> Result<(), Fail> {
    let mirror = honest_mirror(&rt, SET, QUERY)?;
    for is_enough in [true, false] {
        let mut scene = Scene::new(rt.alloc(), POST, 50)?;
        scene.add(&mirror.request, &mirror.response, Then::Closes)?;
        scene.add(&mirror.request, &mirror.response, Then::Closes)?;
        let most = if is_enough { WORK } else { WORK - 1 };
        let response = got_within(&rt, &mirror.root, &mut scene, Some(most))?;
        if is_enough {
            assert!(rt; response.ends_with(DOCUMENT));
            assert_eq!(rt; scene.dials, 1);
        } else {
            assert!(rt;
                tells(
                    &response,
                    b"HTTP/1.1 503 Service Unavailable\r\n",
                    b">Error</strong>: too much work </p>\n"
                )
            );
            assert_eq!(rt; scene.dials, 2);
        }
    }
    Ok(())
}
