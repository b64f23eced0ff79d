//! Plans of query statements: which of a statement's filters says where to look, and which are tested on
//! what was found there.
//!
//! [`plan`] picks the base of a statement. Where several filters could serve, [`Plan::rivals`] tells which
//! are to be counted, and [`Plan::choose`] takes the one with the fewest entries. No filter is copied.
#![tactic(auto)]

mod base_sort;
mod counting;
mod laws;
mod planned;
mod planner;

pub use counting::is_counted;
pub use laws::{choice_stays_among_rivals, one_choice, one_plan, rest_and_base};
pub use planned::Plan;
pub use planner::plan;
