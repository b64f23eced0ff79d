//! A socket that listens for clients of this machine (127.0.0.1), for servers that wait at `mio`'s poll. Failures of `accept`
//! that pass are tried again.
#![tactic(auto)]

mod listener;

pub use listener::{FAILURE_LIMIT, LISTENER, Listener, NotTaken, RETRY_MILLISECONDS};
