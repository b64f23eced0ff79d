//! The command `changes`: a change file that says which root it gives, over readers and writers.
#![tactic(auto)]

mod changes_command;
mod root_line_end;

pub use changes_command::changes;
