//! The command `relay ROOT HOST:PORT LISTENPORT [--fallback HOST:PORT].. [--root-file FILE] [--connections N]
//! [--max-work N]`.

ghost use Rattle.std.specs.Prelude.{◌≡◌, ◌⊎◌, IfErr, IfOk, codes};
ghost use Rattle.clap.specs.Words.{found_of, rows_of};
ghost use Rattle.command_line.specs.Arguments.{text_of};
ghost use Rattle.command_line.specs.internal.Commands.{IsCommand, argument_rule};
ghost use Rattle.command_line.specs.Jobs.{Gives};
ghost use Rattle.command_line.specs.RelayCommand.{fallback_rule, relay_app, relay_name, root_file_rule};
ghost use Rattle.command_line.specs.RootArgument.{IsRootText};

use crate::arguments::{
    Argument, MIRROR, Place, Value, all_texts_of, command_with, optional_text_of, text_of,
};
use crate::job::Job;
use crate::listen_options::{connections_of, connections_option, port_argument, port_of};
use crate::max_work_option::{max_work_of, max_work_option};
use crate::root_argument::{ROOT, root_of};
use crate::words_fault::WordsFault;
use clap::{ArgMatches, Command};
use std::alloc::{AllocError, Global};

/// The name of the command.
pub(crate) const RELAY: &str = "relay";

/// What the program's help says of the command.
const ABOUT: &str =
    "Answers programs on this machine as an Overpass server does, with what a mirror has proved";

const LISTEN_PORT: &str = "LISTENPORT";

const FALLBACK: &str = "fallback";

const FALLBACK_HELP: &str =
    "Another mirror, asked where those before it fail; may be given several times";

const ROOT_FILE: &str = "root-file";

const ROOT_FILE_HELP: &str = "File with the root that is in force; ROOT if it isn't given";

/// The command, as `clap` is told of it.
pub(crate) fn relay_command<'a>(alloc: Global) -> Result<Command<'a>, AllocError>
    ensures { IfOk result (IsCommand relay_app) }
{
    let arguments = [
        ROOT,
        MIRROR,
        port_argument(LISTEN_PORT),
        fallback_option(),
        root_file_option(),
        connections_option(),
        max_work_option(),
    ];
    command_with(alloc, RELAY, ABOUT, &arguments)
}

fn fallback_option() -> Argument
    ensures { argument_rule result ≡ fallback_rule }
{
    Argument {
        name: FALLBACK,
        help: FALLBACK_HELP,
        place: Place::RepeatedOption {
            value_name: "HOST:PORT",
        },
        value: Value::AnyText,
    }
}

fn root_file_option() -> Argument
    ensures { argument_rule result ≡ root_file_rule }
{
    Argument {
        name: ROOT_FILE,
        help: ROOT_FILE_HELP,
        place: Place::Option { value_name: "FILE" },
        value: Value::AnyText,
    }
}

/// What the matches of this command ask for. `BadRoot` where ROOT isn't 64 hexadecimal digits.
pub(crate) fn relay_job(alloc: Global, matches: &ArgMatches<'_>) -> Result<Job, WordsFault>
    ensures given { IfOk result (λ job. Gives job relay_name (rows_of (found_of matches.now))) }
    ensures refused { IfErr result (λ fault. (fault ≡ WordsFault.Memory)
        ⊎ ((fault ≡ WordsFault.BadRoot)
        × ¬ (IsRootText (text_of (codes "ROOT") (rows_of (found_of matches.now)))))) }
{
    let root = root_of(alloc, matches)?;
    let mirror = text_of(alloc, matches, MIRROR)?;
    let fallbacks = all_texts_of(alloc, matches, FALLBACK)?;
    let root_file = optional_text_of(alloc, matches, ROOT_FILE)?;
    Ok(Job::Relay {
        root,
        mirror,
        fallbacks,
        port: port_of(matches, LISTEN_PORT),
        root_file,
        connections: connections_of(matches),
        max_work: max_work_of(matches),
    })
}
