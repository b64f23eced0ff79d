//! Queries answered from the trees of a published set.
//!
//! [`evaluate`] opens the manifest of a root on any shelf, walks the ranges that the query asks for and no
//! others, and writes the answer into a [`Sink`]. An object that is asked twice is looked up once. [`evaluate_in`] writes
//! it in another form than OPL.
#![tactic(auto)]

mod affording;
mod announcing;
mod answering;
mod apply_filters;
mod box_counts;
mod boxes;
mod candidates;
mod cell_entry;
mod chains;
mod choose_plan;
mod entry_names;
mod evaluation;
mod fault;
mod filter_by_object;
mod filter_by_reference;
mod found;
mod items;
mod kinds;
mod known;
mod laws;
mod links;
mod lists_in;
mod lookups;
mod memo;
mod meter;
mod object_test;
mod objects;
mod opening;
mod paths;
mod print;
mod question;
mod reads;
mod recursions;
mod repetition;
mod run;
mod same_filters;
mod select;
mod select_memo;
mod select_once;
mod shelf_source;
mod sink;
mod source;
mod walks;
mod written;

pub use evaluation::{Report, evaluate, evaluate_in, evaluate_within};
pub use fault::EvalFault;
pub use laws::one_work;
pub use opening::{ManifestFault, open_manifest};
pub use sink::Sink;
