//! Files, standard output and standard error of this machine, as the commands use them, and what is told on a terminal.
//!
//! A file is opened when a command first reads it ([`InputFile`]), and one that is written is put in its place once it is
//! whole ([`OutputFile`]). How far a command is is shown where somebody looks ([`Progress`], [`Building`]), and a fault is
//! told in a line, and in words there ([`report`]).
#![tactic(auto)]

mod building;
mod clean_output;
mod heads;
mod in_words;
mod input_file;
mod one_file;
mod output_file;
mod progress;
mod regular_file;
mod server_errors;
mod telling;
mod watched;

pub use building::Building;
pub use clean_output::CleanOutput;
pub use heads::refuse_head;
pub use in_words::{Subject, Trouble, tell_in_words};
pub use input_file::InputFile;
pub use one_file::are_one_file;
pub use output_file::OutputFile;
pub use progress::Progress;
pub use regular_file::is_regular_file;
pub use server_errors::ServerErrors;
pub use telling::{
    NOTHING, port_refused, quiet_file, refuse_one_file, report, trouble_of, watched_file,
};
pub use watched::Watched;
