//! What every query means over a plain list of objects: the definitions, and laws that hold of them.
#![tactic(auto)]

mod laws;

pub use laws::{
    chains_link_by_link, has_meaning, has_meaning_by, nwr_is_all_kinds, one_meaning,
    one_meaning_by, order_is_no_matter, out_number_cuts, printed_once_in_order,
};
