//! Many connections at a time, in one thread.
//!
//! What happens at the sockets is told one thing after the other ([`Traffic`]), and each is a step of the desk. What a
//! connection has coming is kept for it until its socket takes it. Changes are published meanwhile, where somebody looks
//! for them ([`osm_desk::Lookout`]). [`serve_many`] is the loop. The laws say what each connection gets, whatever happens, in
//! whatever order.
#![tactic(auto)]

mod hearing;
mod laws;
mod leaving;
mod output;
mod outputs;
mod pieces;
mod serving;
mod traffic;
mod traffic_fault;
mod welcome;
mod writing;

pub use laws::{each_is_handed_its_own, limits_law, serving_is_a_run};
pub use pieces::give_piece;
pub use serving::serve_many;
pub use traffic::{News, Reading, Room, Traffic, Writing};
pub use traffic_fault::TrafficFault;
