//! The command `pack FILE PACK [--add] [--compact] [--memory BYTES] [--temp DIR] [--edition 1|2] [--sequence N]`.

ghost use Rattle.std.specs.Prelude.{◌≡◌, ◌⊎◌, IfErr, IfOk, codes};
ghost use Rattle.clap.specs.Words.{first_of, found_of, one_of, rows_of};
ghost use Rattle.command_line.specs.EditionOptions.{IsBadEdition};
ghost use Rattle.command_line.specs.internal.Commands.{IsCommand, argument_rule};
ghost use Rattle.command_line.specs.Flags.{IsFlag};
ghost use Rattle.command_line.specs.Jobs.{Gives};
ghost use Rattle.command_line.specs.PackCommand.{add_rule, compact_rule, pack_app, pack_name, temp_rule};

use crate::arguments::{Argument, Place, Value, command_with, optional_text_of, text_of};
use crate::edition_options::{edition_of, edition_option, sequence_option};
use crate::job::Job;
use crate::memory_option::{memory_of, memory_option};
use crate::words_fault::WordsFault;
use clap::{ArgMatches, Command};
use std::alloc::{AllocError, Global};

/// The name of the command.
pub(crate) const PACK: &str = "pack";

/// What the program's help says of the command.
const ABOUT: &str =
    "Writes a set's pack, a file from which clients answer queries by themselves, and prints the root";

const INPUT_FILE: Argument = Argument {
    name: "FILE",
    help: "OPL file with the objects of the set; with --add, file of changes; with --compact, head or pack",
    place: Place::Positional,
    value: Value::AnyText,
};

const PACK_FILE: Argument = Argument {
    name: "PACK",
    help: "File that the pack is written to; with --add, the pack or its head",
    place: Place::Positional,
    value: Value::AnyText,
};

const ADD: &str = "add";

const ADD_HELP: &str =
    "Add the changes of FILE: the new nodes go to a further file, PACK.1 and so on, which PACK.head names";

const COMPACT: &str = "compact";

const COMPACT_HELP: &str =
    "Write the set whose files FILE names as one file anew, which is PACK; the others stay as they are";

const TEMP: &str = "temp";

const TEMP_HELP: &str =
    "Folder for temporary files, which have no names; that of PACK if it isn't given";

/// The command, as `clap` is told of it.
pub(crate) fn pack_command<'a>(alloc: Global) -> Result<Command<'a>, AllocError>
    ensures { IfOk result (IsCommand pack_app) }
{
    let arguments = [
        INPUT_FILE,
        PACK_FILE,
        add_option(),
        compact_option(),
        memory_option(),
        temp_option(),
        edition_option(),
        sequence_option(),
    ];
    command_with(alloc, PACK, ABOUT, &arguments)
}

fn add_option() -> Argument
    ensures { argument_rule result ≡ add_rule }
{
    Argument {
        name: ADD,
        help: ADD_HELP,
        place: Place::Flag,
        value: Value::AnyText,
    }
}

fn compact_option() -> Argument
    ensures { argument_rule result ≡ compact_rule }
{
    Argument {
        name: COMPACT,
        help: COMPACT_HELP,
        place: Place::Flag,
        value: Value::AnyText,
    }
}

fn temp_option() -> Argument
    ensures { argument_rule result ≡ temp_rule }
{
    Argument {
        name: TEMP,
        help: TEMP_HELP,
        place: Place::Option { value_name: "DIR" },
        value: Value::AnyText,
    }
}

/// What the matches of this command ask for. `BadEdition` where the word after `--edition` is neither `1` nor `2`.
pub(crate) fn pack_job(alloc: Global, matches: &ArgMatches<'_>) -> Result<Job, WordsFault>
    ensures given { IfOk result (λ job. Gives job pack_name (rows_of (found_of matches.now))) }
    ensures refused { IfErr result (λ fault. (fault ≡ WordsFault.Memory)
        ⊎ ((fault ≡ WordsFault.BadEdition)
        × IsBadEdition (first_of (codes "edition") (rows_of (found_of matches.now))))) }
{
    let file = text_of(alloc, matches, INPUT_FILE)?;
    let pack_file = text_of(alloc, matches, PACK_FILE)?;
    let temp = optional_text_of(alloc, matches, TEMP)?;
    let edition = edition_of(matches)?;
    Ok(Job::Pack {
        file,
        pack_file,
        add: add_of(matches),
        compact: compact_of(matches),
        memory: memory_of(matches),
        temp,
        edition,
    })
}

/// Whether the matches have the flag `--add`.
fn add_of(matches: &ArgMatches<'_>) -> bool
    ensures { IsFlag (one_of (codes "add") (rows_of (found_of matches.now))) result }
{
    matches.get_flag(ADD)
}

/// Whether the matches have the flag `--compact`.
fn compact_of(matches: &ArgMatches<'_>) -> bool
    ensures { IsFlag (one_of (codes "compact") (rows_of (found_of matches.now))) result }
{
    matches.get_flag(COMPACT)
}
