//! The bytes of a tree's nodes, their digests, and where nodes are kept.
//!
//! A tree is made of nodes that are named by the SHA-256 digests of their bytes. This crate reads and
//! writes those bytes. A `Shelf` gives nodes by their digests: a `Stock` owns a publisher's nodes, a
//! `Recorder` is a shelf over it that knows which nodes were used, and a `Bag` is a shelf over the
//! nodes of a proof.
#![tactic(auto)]

mod bag;
mod child;
mod children;
mod digest;
mod entries;
mod fault;
mod fetched;
mod fields;
mod item;
mod laws;
mod limits;
mod new_node;
mod node;
mod order;
mod part;
mod recorded_node;
mod recorder;
mod shelf;
mod spelling;
mod stock;
mod tree;
mod write;

pub use bag::Bag;
pub use child::Child;
pub use children::Children;
pub use digest::{Digest, digest_of};
pub use entries::Entries;
pub use fault::NodeFault;
pub use fetched::Fetched;
pub use item::Item;
pub use laws::{limits_law, one_order_law, stock_law};
pub use limits::{ENTRY_LIMIT, ITEM_LIMIT, KEY_LIMIT, LEVEL_LIMIT, NUMBER_LIMIT, VALUE_LIMIT};
pub use new_node::NewNode;
pub use node::NodeRef;
pub use order::{is_above, is_below};
pub use part::Part;
pub use recorder::Recorder;
pub use shelf::{FixedShelf, Shelf, ShelfFault};
pub use spelling::spelling_law;
pub use stock::{PutFault, Stock};
pub use tree::Tree;
pub use write::{write_inner, write_leaf};
