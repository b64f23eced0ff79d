//! Devices for the tests of other crates: a reader and a writer that take few bytes a call and stop where a test says, and
//! numbers that look like chance.
#![tactic(auto)]

mod narrow_writer;
mod numbers;
mod slow_reader;

pub use narrow_writer::{NarrowWriter, Stop};
pub use numbers::Numbers;
pub use slow_reader::SlowReader;
