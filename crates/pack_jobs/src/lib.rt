//! Jobs over packs: `pack` and `query`.
//!
//! Each function lends a command of the layers below the files and sockets that its words name, tells of a fault on standard
//! error, and gives the status with which the program ends.
#![tactic(auto)]

mod adding;
mod compacting;
mod heads;
mod packing;
mod querying;
mod server_querying;

pub use packing::start_pack;
pub use querying::start_query;
