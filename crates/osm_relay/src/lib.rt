//! A relay: a program on the client's own machine that answers as an Overpass server does. It sends each query to a mirror,
//! checks the proof by the root that it holds, and only then answers, as OSM JSON or OSM XML.
//!
//! A [`Conversation`] is one client with the mirror that is asked for it. No call waits: the wires are given ([`Wire`],
//! [`Network`]), so that tests can lie. The promise of each conversation, whatever comes over its wires in whatever order,
//! stands at [`Conversation::promise`].
#![tactic(auto)]

mod answering;
mod asking;
mod choosing;
mod conversation;
mod fault_texts;
mod finding;
mod hearing;
mod judging;
mod laws;
mod limits;
mod listening;
mod network;
mod output;
mod page;
mod question;
mod receiving;
mod relay_fault;
mod relaying;
mod response;
mod roots;
mod slots;
mod stage;
mod starved;
mod step;
mod stepping;
mod terms;
mod turn;
mod wire;

pub use conversation::Conversation;
pub use laws::{honest_mirrors_are_relayed, limits_law};
pub use limits::{CONVERSATION_LIMIT, REPLY_LIMIT};
pub use network::{Network, News, Room};
pub use relay_fault::RelayFault;
pub use relaying::relay_many;
pub use roots::Roots;
pub use starved::starved_response;
pub use terms::Terms;
pub use turn::{Awaits, Turn};
pub use wire::{Reading, Wire, Writing};
