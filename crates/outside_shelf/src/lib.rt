//! A shelf over a source of which nothing is known: a file, or a server that stores nodes.
//!
//! A [`NodeSource`] gives bytes by their digest. An [`OutsideShelf`] over it takes a node where its bytes have the digest
//! that was asked, and refuses all others, so that what is proved over shelves holds whoever stores the nodes. A
//! [`StockedShelf`] has nodes beside it that were digested before, so that a source is asked for them no more.
#![tactic(auto)]

mod bound;
mod copies;
mod laws;
mod node_stock;
mod outside;
mod proof_shelf;
mod refused;
mod source;
mod stocked;

pub use laws::bytes_law;
pub use node_stock::NodeStock;
pub use outside::OutsideShelf;
pub use proof_shelf::ProofShelf;
pub use refused::Refused;
pub use source::{NodeSource, SourceFault};
pub use stocked::StockedShelf;
