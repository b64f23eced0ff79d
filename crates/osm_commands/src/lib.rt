//! The commands of the program, as functions over readers and writers that they are lent.
//!
//! [`ask`], [`publish`], [`prove`] and [`check`]; for the command `serve`, the snapshot of a file and the
//! [`listening_line`] with which a server begins. What refuses them is a [`CommandFault`], and how the program ends then a
//! [`Status`].
#![tactic(auto)]

mod ask_command;
mod check_command;
mod command_fault;
mod document_writer;
mod flushing_writer;
mod front_reader;
mod listening_lines;
mod prove_command;
mod publish_command;
mod query_reader;
mod ready_writer;
mod replacing_writer;
mod root_lines;
mod snapshot_reader;
mod status;
mod verdict_lines;
mod whole_lines;
mod whole_reader;
mod whole_writer;

pub use ask_command::ask;
pub use check_command::check;
pub use command_fault::CommandFault;
pub use document_writer::write_document;
pub use flushing_writer::{FlushingWriter, flush_outcome};
pub use listening_lines::{listening_line, pack_listening_line};
pub use prove_command::prove;
pub use publish_command::publish;
pub use query_reader::read_query;
pub use ready_writer::ReadyWriter;
pub use replacing_writer::ReplacingWriter;
pub use root_lines::root_line;
pub use snapshot_reader::read_snapshot;
pub use status::Status;
pub use verdict_lines::verdict_line;
pub use whole_lines::WholeLines;
pub use whole_reader::{read_whole, read_within};
pub use whole_writer::write_whole;
