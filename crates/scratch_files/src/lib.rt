//! Scratch files: where more is kept than memory holds, for as long as the program runs.
//!
//! A [`ScratchFolder`] makes stores of runs for `external_sort`, each a file of its own in one folder. A file has a name
//! only while it is made: the system frees it when the program ends, however it ends.
#![tactic(auto)]

mod folder;
mod pending;
mod store;
mod told;

pub use folder::ScratchFolder;
pub use store::ScratchStore;
