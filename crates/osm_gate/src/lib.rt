//! HTTP: a connection is fed bytes and gives responses.
//!
//! A [`Gate`] is one connection: it is fed pieces of bytes, and gives the responses to the requests that they
//! complete, in one vector or as [`Chunks`]. [`Unsent`] is what is left to be written of chunks. [`serve`] drives a gate
//! over a reader and a writer, and [`serve_connection`] any [`Connection`].
#![tactic(auto)]

mod chunks;
mod connection;
mod endpoint;
mod gate;
mod gate_fault;
mod laws;
mod limits;
mod mirror;
mod mirror_fault;
mod query_response;
mod reply;
mod requests;
mod respond;
mod response;
mod response_bytes;
mod route;
mod serving;
mod snapshot_connection;
mod unsent;

pub use chunks::Chunks;
pub use connection::Connection;
pub use gate::Gate;
pub use gate_fault::GateFault;
pub use laws::{
    limits_law, nothing_after_the_end, one_response, one_response_within, pieces_ask_the_same,
    pieces_complete_one, responses_stand_in_order, rests_are_short,
};
pub use mirror::Mirror;
pub use mirror_fault::MirrorFault;
pub use response_bytes::ResponseBytes;
pub use serving::{no_memory_response, send_out_of_memory, serve, serve_connection};
pub use unsent::Unsent;
