//! Which tree is being built, shown on a terminal.

use osm_index::BuildProgress;
use std::io::{IsTerminal, Write};
use tree_node::Tree;

/// From how many objects on building takes so long that it is shown: some 4 MB of OPL.
const SHOWN_FROM: usize = 50_000;

/// The line of standard error that says which tree is being built. Where standard error is no terminal nothing is shown.
#[derive(Drop)]
pub struct Building<'a> {
    rt: &'a HostRuntime,
    /// Whether a line stands there.
    is_shown: bool,
}

impl<'a> Building<'a> {
    /// Nothing is built yet.
    pub fn new(rt: &'a HostRuntime) -> Building<'a> {
        Building {
            rt,
            is_shown: false,
        }
    }

    /// Takes the line away, if there is one.
    pub fn clear(&mut self) {
        if self.is_shown {
            let _ = write!(self.rt.stderr(), "\r\x1b[2K");
            self.is_shown = false;
        }
    }
}

impl BuildProgress for Building<'_> {
    fn begin(&mut self, tree: Tree, object_count: usize) {
        let errors = &mut self.rt.stderr();
        if object_count < SHOWN_FROM || !errors.is_terminal() {
            return;
        }
        self.is_shown = true;
        let name = match tree {
            Tree::Objects => "1 of 4, objects",
            Tree::Tags => "2 of 4, tags",
            Tree::Cells => "3 of 4, places",
            Tree::Backs => "4 of 4, back references",
        };
        let _ = write!(errors, "\r\x1b[2Kbuilding tree {name}");
    }
}
