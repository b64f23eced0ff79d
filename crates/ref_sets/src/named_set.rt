//! A set of references with its name.

use crate::ref_set::RefSet;
use std::rc::Rc;

/// A set and its name.
#[derive(Drop)]
pub struct NamedSet<'q> {
    /// The name, without its dot.
    pub name: &'q [u8],
    /// Its references, which other names and the callers of `NamedSets::shared` may have too.
    pub refs: Rc<RefSet>,
}
