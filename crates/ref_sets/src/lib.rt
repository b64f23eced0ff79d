//! Sets of references, and the named sets of a query.
#![tactic(auto)]

mod kinds;
mod named_set;
mod named_sets;
mod ref_set;
mod rising_lists;
mod search;

pub use named_set::NamedSet;
pub use named_sets::NamedSets;
pub use ref_set::RefSet;
