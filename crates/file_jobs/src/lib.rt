//! Jobs over files of this machine: `changes`, `check` and `prove`.
//!
//! Each function lends a command of the layers below the files and sockets that its words name, tells of a fault on standard
//! error, and gives the status with which the program ends.
#![tactic(auto)]

mod changing;
mod checking;
mod proving;

pub use changing::change_file;
pub use checking::start_check;
pub use proving::start_prove;
