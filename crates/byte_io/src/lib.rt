//! Bytes that are read and written, whatever they say.
//!
//! A [`PieceReader`] reads what a reader gives piece by piece, and [`write_whole`] writes a text whole. [`split_once`]
//! and [`digits_len`] find where the first part of a text ends. All of them work without memory of their own.
#![tactic(auto)]

mod digits;
mod laws;
mod not_written;
mod piece_reader;
mod separator;
mod writing;

pub use digits::digits_len;
pub use laws::limits_law;
pub use not_written::NotWritten;
pub use piece_reader::{PIECE_LIMIT, PieceFault, PieceReader, READ_LIMIT};
pub use separator::split_once;
pub use writing::write_whole;
