//! Jobs that ask mirrors: `fetch` and `relay`.
//!
//! Each function lends a command of the layers below the files and sockets that its words name, tells of a fault on standard
//! error, and gives the status with which the program ends.
#![tactic(auto)]

mod fetching;
mod relaying;
mod root_file;

pub use fetching::start_fetch;
pub use relaying::start_relay;
