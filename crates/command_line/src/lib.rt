//! The words of the command line of `osm_mirror`, read by `clap`.
//!
//! A command has a file of its own (`ask_command.rt`), with the part of the command line that it adds and
//! the job that its matches ask for. Arguments and options of several commands have theirs (`root_argument.rt`,
//! `form_option.rt`). `program_command.rt` joins the commands, `words.rt` reads the words.
#![tactic(auto)]

mod arguments;
mod ask_command;
mod changes_command;
mod check_command;
mod edition_options;
mod explain_command;
mod fetch_command;
mod form_option;
mod job;
mod laws;
mod listen_options;
mod max_bytes_option;
mod max_size_option;
mod max_work_option;
mod memory_option;
mod pack_command;
mod program_command;
mod prove_command;
mod publish_command;
mod query_command;
mod relay_command;
mod root_argument;
mod serve_command;
mod words;
mod words_fault;

pub use job::Job;
pub use laws::{budgets_are_numbers, each_command_takes_words};
pub use osm_forms::Form;
pub use osm_keys::Edition;
pub use words::read_words;
pub use words_fault::WordsFault;
