//! The command `publish FILE [--edition 1|2] [--sequence N]`.

ghost use Rattle.std.specs.Prelude.{◌≡◌, ◌⊎◌, IfErr, IfOk, codes};
ghost use Rattle.clap.specs.Words.{first_of, found_of, rows_of};
ghost use Rattle.command_line.specs.EditionOptions.{IsBadEdition};
ghost use Rattle.command_line.specs.internal.Commands.{IsCommand};
ghost use Rattle.command_line.specs.Jobs.{Gives};
ghost use Rattle.command_line.specs.PublishCommand.{publish_app, publish_name};

use crate::arguments::{FILE, command_with, text_of};
use crate::edition_options::{edition_of, edition_option, sequence_option};
use crate::job::Job;
use crate::words_fault::WordsFault;
use clap::{ArgMatches, Command};
use std::alloc::{AllocError, Global};

/// The name of the command.
pub(crate) const PUBLISH: &str = "publish";

/// What the program's help says of the command.
const ABOUT: &str = "Prints the root of a set, by which clients check answers";

/// The command, as `clap` is told of it.
pub(crate) fn publish_command<'a>(alloc: Global) -> Result<Command<'a>, AllocError>
    ensures { IfOk result (IsCommand publish_app) }
{
    let arguments = [FILE, edition_option(), sequence_option()];
    command_with(alloc, PUBLISH, ABOUT, &arguments)
}

/// What the matches of this command ask for. `BadEdition` where the word after `--edition` is neither `1` nor `2`.
pub(crate) fn publish_job(alloc: Global, matches: &ArgMatches<'_>) -> Result<Job, WordsFault>
    ensures given { IfOk result (λ job. Gives job publish_name (rows_of (found_of matches.now))) }
    ensures refused { IfErr result (λ fault. (fault ≡ WordsFault.Memory)
        ⊎ ((fault ≡ WordsFault.BadEdition)
        × IsBadEdition (first_of (codes "edition") (rows_of (found_of matches.now))))) }
{
    let file = text_of(alloc, matches, FILE)?;
    let edition = edition_of(matches)?;
    Ok(Job::Publish { file, edition })
}
