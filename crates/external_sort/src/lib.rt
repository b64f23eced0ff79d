//! Sorting more records than memory holds.
//!
//! A [`Sorter`] takes records in any order and keeps those that fit its memory. Each time they no longer fit, it sorts
//! them and writes them as a run to a [`RunStore`]. [`Sorted`] merges the runs: it gives each record once, by rising keys.
#![tactic(auto)]

mod batch;
mod fault;
mod filling;
mod header;
mod merge;
mod part;
mod place;
mod place_order;
mod record;
mod run_order;
mod run_reader;
mod run_store;
mod sorted;
mod sorter;
mod spelling;
mod window;
mod write_run;

pub use fault::SortFault;
pub use record::Record;
pub use run_store::{RunStore, StoreFault, StoreMaker};
pub use sorted::Sorted;
pub use sorter::Sorter;
