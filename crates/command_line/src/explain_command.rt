//! The command `explain CODE`.

ghost use Rattle.std.specs.Prelude.{◌≡◌, IfOk};
ghost use Rattle.clap.specs.Words.{found_of, rows_of};
ghost use Rattle.command_line.specs.internal.Commands.{IsCommand};
ghost use Rattle.command_line.specs.ExplainCommand.{explain_app, explain_name};
ghost use Rattle.command_line.specs.Jobs.{Gives};

use crate::arguments::{Argument, Place, Value, command_with, text_of};
use crate::job::Job;
use clap::{ArgMatches, Command};
use std::alloc::{AllocError, Global};

/// The name of the command.
pub(crate) const EXPLAIN: &str = "explain";

/// What the program's help says of the command.
const ABOUT: &str = "Prints what a code means, where it is told and what to do about it";

const CODE: Argument = Argument {
    name: "CODE",
    help: "The code, as 'O9', or another line that the program prints, as 'bad root'",
    place: Place::Positional,
    value: Value::AnyText,
};

/// The command, as `clap` is told of it.
pub(crate) fn explain_command<'a>(alloc: Global) -> Result<Command<'a>, AllocError>
    ensures { IfOk result (IsCommand explain_app) }
{
    command_with(alloc, EXPLAIN, ABOUT, &[CODE])
}

/// What the matches of this command ask for.
pub(crate) fn explain_job(alloc: Global, matches: &ArgMatches<'_>) -> Result<Job, AllocError>
    ensures { IfOk result (λ job. Gives job explain_name (rows_of (found_of matches.now))) }
{
    let code = text_of(alloc, matches, CODE)?;
    Ok(Job::Explain { code })
}
