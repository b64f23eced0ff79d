//! Refused memory.

use super::set_of;
use crate::tests::texts_of_sets::ALL_KINDS;
use osm_index::entries_of;
use std::test::Fail;
use tree_node::Tree;

/// Run with each allocation refused in turn, each list is whole or its call is out of memory, and the list is
/// whole when memory is there again.
#[test]
fn entries_survive_refused_memory(rt: HostRuntime) -> Result<(), Fail> {
    let alloc = rt.alloc();
    let set = set_of(alloc, ALL_KINDS)?;
    let rows = [
        (Tree::Objects, 4),
        (Tree::Tags, 4),
        (Tree::Cells, 2),
        (Tree::Backs, 5),
    ];
    for (tree, number) in rows {
        if let Ok(list) = entries_of(alloc, &set, tree)
            && let Ok(entries) = list.sorted(alloc)
        {
            assert_eq!(rt; entries.len(), number);
        }
        let list = entries_of(alloc, &set, tree)?;
        assert_eq!(rt; list.sorted(alloc)?.len(), number);
    }
    Ok(())
}
