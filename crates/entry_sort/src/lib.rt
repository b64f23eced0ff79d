//! Sorting the entries of the trees of a set of objects that is larger than memory.
//!
//! An [`EntrySorter`] takes sets of objects, one after the other, and keeps the entries of the four trees of all of
//! them in runs on a device. Then it gives them to an [`EntrySink`]: tree by tree, those of a tree by rising key, each
//! once.
#![tactic(auto)]

mod entry_fault;
mod entry_sink;
mod entry_sorter;
mod file_entries;
mod gathering;
mod give;
mod last_key;
mod name_sorter;
mod object_len;
mod read_lines;
mod repeat_scan;
mod rising;
mod tree_entries;

pub use entry_fault::EntryFault;
pub use entry_sink::{EntrySink, SinkFault};
pub use entry_sorter::EntrySorter;
pub use file_entries::sort_entries;
