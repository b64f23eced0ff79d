//! Changing a publication whose nodes stand in files.
//!
//! A publisher keeps the nodes of a publication in a pack and in further files. [`add_changes`] makes of them the nodes of the
//! next publication, and writes those that are new to one more file.
#![tactic(auto)]

mod add;
mod added;
mod fault;
mod laws;
mod places;
mod plan;
mod readers;
mod rebuild;
mod under;

pub use add::add_changes;
pub use added::Added;
pub use fault::AddFault;
pub use laws::files_law;
pub use readers::Readers;
