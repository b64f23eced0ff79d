//! Places that a client reads: a mirror and a server of files, over TCP, and the file of a pack on this machine; and
//! the files that a head names.
#![tactic(auto)]

mod heads;
mod pack_file;
mod tcp_dial;
mod tcp_wires;

pub use heads::{files_at, head_text, place_beside, places_beside};
pub use pack_file::PackFile;
pub use tcp_dial::TcpDial;
pub use tcp_wires::TcpWires;
