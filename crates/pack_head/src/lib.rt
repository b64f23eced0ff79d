//! Heads: a small text that names the newest root of a publication, and the files that have its trees, in order.
//!
//! The files never change; what is added comes in a further file, and the head is replaced. Nothing in a head has to be trusted:
//! the root is compared with one that the reader trusts, and whatever is read from the files is digested.
#![tactic(auto)]

mod digits;
mod fault;
mod files;
mod front;
mod head;
mod laws;
mod limits;
mod line;
mod lines;
mod name;
mod reading;
#[cfg(test)]
mod tests;
mod writing;

pub use fault::HeadFault;
pub use head::{Head, HeadFile};
pub use laws::{head_law, limits_law};
pub use limits::{FILE_LEN_LIMIT, FILES_LIMIT, NAME_LIMIT};
pub use name::is_head_name;
pub use reading::read_head;
pub use writing::write_head;
