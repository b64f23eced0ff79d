//! The command `fetch`: one query to a mirror that isn't trusted, and the answer checked on this machine.
#![tactic(auto)]

mod fetch_command;
mod laws;
mod not_fetched;

pub use fetch_command::fetch;
pub use laws::fetched_answers_are_right;
pub use not_fetched::NotFetched;
