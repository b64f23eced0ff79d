//! The job of a mirror: `serve`.
//!
//! It lends a command of the layers below the files and sockets that its words name, tells of a fault on standard
//! error, and gives the status with which the program ends.
#![tactic(auto)]

mod change_folder;
mod pack_serving;
mod serving;

pub use serving::start_serve;
