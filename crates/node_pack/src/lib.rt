//! Packs: files of a publication's nodes, which are written once, and from which any reader evaluates.
//!
//! A [`PackSource`] is a source of nodes for an outside shelf, over a file, a text in memory, or anything else that gives
//! bytes at an offset ([`ReadAt`]). Nothing in a pack is trusted: the shelf digests each node that it takes.
#![tactic(auto)]

mod ahead;
mod announced;
mod children;
mod fault;
mod file;
mod further;
mod gather;
mod gathered;
mod header;
mod hint;
mod laws;
mod layout;
mod learn;
mod led;
mod place;
mod read_at;
mod record;
mod records;
mod role;
mod round;
mod row;
mod source;
mod step;
mod whole_record;
mod write_fault;
mod writing;

pub use fault::PackFault;
pub use further::write_further;
pub use header::Header;
pub use laws::{header_law, hint_law, limits_law};
pub use learn::FILE_LIMIT;
pub use place::Place;
pub use read_at::{ReadAt, ReadFault};
pub use source::PackSource;
pub use whole_record::Record;
pub use write_fault::WriteFault;
pub use writing::write_pack;
