//! The sockets of this machine as the traffic of a server: by readiness, in one thread.
#![tactic(auto)]

mod patience;
mod peer;
mod sockets;

pub use sockets::Sockets;
