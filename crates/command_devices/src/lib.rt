//! A device for tests of commands that make a file.
#![tactic(auto)]

mod placing_writer;

pub use placing_writer::PlacingWriter;
