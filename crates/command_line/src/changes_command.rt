//! The command `changes FILE SEQUENCE CHANGEFILE`.

ghost use Rattle.std.specs.Prelude.{◌≡◌, IfOk, codes};
ghost use Rattle.clap.specs.Words.{found_of, one_of, rows_of};
ghost use Rattle.command_line.specs.internal.Commands.{IsCommand, argument_rule};
ghost use Rattle.command_line.specs.ChangesCommand.{changes_app, changes_name, set_sequence_rule};
ghost use Rattle.command_line.specs.Jobs.{Gives};
ghost use Rattle.command_line.specs.Numbers.{IsNumber};

use crate::arguments::{Argument, FILE, Place, Value, command_with, text_of};
use crate::job::Job;
use clap::{ArgMatches, Command};
use std::alloc::{AllocError, Global};

/// The name of the command.
pub(crate) const CHANGES: &str = "changes";

/// What the program's help says of the command.
const ABOUT: &str =
    "Applies a change file to a set, prints the new root and adds it to the end of the change file";

const SEQUENCE: &str = "SEQUENCE";

const SEQUENCE_HELP: &str = "Sequence number of the set before the changes; its edition is 2";

const CHANGE_FILE: Argument = Argument {
    name: "CHANGEFILE",
    help: "OPL file with the changes, to which a line with the new root is added",
    place: Place::Positional,
    value: Value::AnyText,
};

/// The command, as `clap` is told of it.
pub(crate) fn changes_command<'a>(alloc: Global) -> Result<Command<'a>, AllocError>
    ensures { IfOk result (IsCommand changes_app) }
{
    let arguments = [FILE, sequence_argument(), CHANGE_FILE];
    command_with(alloc, CHANGES, ABOUT, &arguments)
}

fn sequence_argument() -> Argument
    ensures { argument_rule result ≡ set_sequence_rule }
{
    Argument {
        name: SEQUENCE,
        help: SEQUENCE_HELP,
        place: Place::Positional,
        value: Value::U64,
    }
}

/// What the matches of this command ask for.
pub(crate) fn changes_job(alloc: Global, matches: &ArgMatches<'_>) -> Result<Job, AllocError>
    ensures { IfOk result (λ job. Gives job changes_name (rows_of (found_of matches.now))) }
{
    let file = text_of(alloc, matches, FILE)?;
    let change_file = text_of(alloc, matches, CHANGE_FILE)?;
    Ok(Job::Changes {
        file,
        sequence: set_sequence_of(matches),
        change_file,
    })
}

/// The sequence number in the matches.
fn set_sequence_of(matches: &ArgMatches<'_>) -> u64
    ensures { IsNumber 64 0 (one_of (codes "SEQUENCE") (rows_of (found_of matches.now))) result }
{
    matches.get_one::<u64>(SEQUENCE).unwrap_or(0)
}
