//! Laws of the work of a query: what a budget of work bounds. No program calls them.
#![tactic(auto)]

mod laws;

pub use laws::{answers_fit_their_work, sets_fit_their_work};
