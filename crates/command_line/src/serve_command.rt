//! The command `serve FILE PORT [--connections N] [--max-work N] [--changes DIR] [--strict-changes] [--edition 1|2]
//! [--sequence N]`.

ghost use Rattle.std.specs.Prelude.{◌≡◌, ◌⊎◌, IfErr, IfOk, codes, is_some, option_map, true};
ghost use Rattle.std.specs.String.{string_bytes};
ghost use Rattle.clap.specs.Words.{first_of, found_of, one_of, rows_of};
ghost use Rattle.command_line.specs.internal.Commands.{IsCommand, argument_rule};
ghost use Rattle.command_line.specs.Flags.{IsFlag};
ghost use Rattle.command_line.specs.Jobs.{Gives};
ghost use Rattle.command_line.specs.ServeCommand.{CantServe, MayTake, changes_rule, serve_app, serve_name, strict_changes_rule};

use crate::arguments::{Argument, FILE, Place, Value, command_with, text_of};
use crate::edition_options::{edition_of, edition_option, sequence_option};
use crate::job::Job;
use crate::listen_options::{connections_of, connections_option, port_argument, port_of};
use crate::max_work_option::{max_work_of, max_work_option};
use crate::words_fault::WordsFault;
use clap::{ArgMatches, Command};
use osm_keys::Edition;
use std::alloc::{AllocError, Global};

/// The name of the command.
pub(crate) const SERVE: &str = "serve";

/// What the program's help says of the command.
const ABOUT: &str = "Answers queries over HTTP, with proofs, on 127.0.0.1";

const PORT: &str = "PORT";

const CHANGES: &str = "changes";

const CHANGES_HELP: &str =
    "Folder of change files: DIR/<sequence + 1>.opl is applied as soon as it is there";

const STRICT_CHANGES: &str = "strict-changes";

const STRICT_CHANGES_HELP: &str = "Refuse change files that don't tell which root they give";

/// The command, as `clap` is told of it.
pub(crate) fn serve_command<'a>(alloc: Global) -> Result<Command<'a>, AllocError>
    ensures { IfOk result (IsCommand serve_app) }
{
    let arguments = [
        FILE,
        port_argument(PORT),
        connections_option(),
        max_work_option(),
        changes_option(),
        strict_changes_option(),
        edition_option(),
        sequence_option(),
    ];
    command_with(alloc, SERVE, ABOUT, &arguments)
}

fn changes_option() -> Argument
    ensures { argument_rule result ≡ changes_rule }
{
    Argument {
        name: CHANGES,
        help: CHANGES_HELP,
        place: Place::Option { value_name: "DIR" },
        value: Value::AnyText,
    }
}

fn strict_changes_option() -> Argument
    ensures { argument_rule result ≡ strict_changes_rule }
{
    Argument {
        name: STRICT_CHANGES,
        help: STRICT_CHANGES_HELP,
        place: Place::Flag,
        value: Value::AnyText,
    }
}

/// What the matches of this command ask for. `BadEdition` where the word after `--edition` is neither `1` nor `2`, and
/// where it is `1` and a folder of changes is named: only the second edition has a next sequence.
pub(crate) fn serve_job(alloc: Global, matches: &ArgMatches<'_>) -> Result<Job, WordsFault>
    ensures given { IfOk result (λ job. Gives job serve_name (rows_of (found_of matches.now))) }
    ensures refused { IfErr result (λ fault. (fault ≡ WordsFault.Memory)
        ⊎ ((fault ≡ WordsFault.BadEdition)
        × CantServe (first_of (codes "edition") (rows_of (found_of matches.now))) (first_of (codes "changes") (rows_of (found_of matches.now))))) }
{
    let edition = edition_of(matches)?;
    let changes = changes_of(alloc, matches, edition)?;
    let file = text_of(alloc, matches, FILE)?;
    Ok(Job::Serve {
        file,
        port: port_of(matches, PORT),
        connections: connections_of(matches),
        max_work: max_work_of(matches),
        edition,
        changes,
        strict_changes: strict_changes_of(matches),
    })
}

/// A copy of the name of the folder of changes, where the matches have one. `BadEdition` where they do, and the edition
/// is the first.
fn changes_of(
    alloc: Global,
    matches: &ArgMatches<'_>,
    edition: Edition,
) -> Result<Option<String>, WordsFault>
    ensures given { IfOk result (λ changes. option_map string_bytes changes
        ≡ first_of (codes "changes") (rows_of (found_of matches.now))) }
    ensures may { IfOk result (λ changes. MayTake changes edition) }
    ensures refused { IfErr result (λ fault. (fault ≡ WordsFault.Memory)
        ⊎ ((fault ≡ WordsFault.BadEdition)
        × (edition ≡ Edition.One)
        × (is_some (first_of (codes "changes") (rows_of (found_of matches.now))) ≡ true))) }
{
    match matches.get_str(CHANGES) {
        None => Ok(None),
        Some(folder) => match edition {
            Edition::One => Err(WordsFault::BadEdition),
            Edition::Two { sequence: _ } => Ok(Some(String::from_str(alloc, folder)?)),
        },
    }
}

/// Whether the matches have the flag `--strict-changes`.
fn strict_changes_of(matches: &ArgMatches<'_>) -> bool
    ensures { IsFlag (one_of (codes "strict-changes") (rows_of (found_of matches.now))) result }
{
    matches.get_flag(STRICT_CHANGES)
}
