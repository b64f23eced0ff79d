//! The sockets of this machine as the network of a relay: by readiness, in one thread.
#![tactic(auto)]

mod leaving;
mod mirror;
mod patience;
mod plug;
mod readiness;
mod sockets;
mod talk;

pub use mirror::{Mirror, MirrorError};
pub use plug::Plug;
pub use sockets::Sockets;
