//! The whole command line of the program.

ghost use Rattle.std.specs.Prelude.{◌≡◌, IfOk, false};
ghost use Rattle.clap.specs.declared.builder.command.Command.TheViews.{out-Command as fields_of};
ghost use Rattle.clap.specs.Words.{App, app_of, with_subcommand};
ghost use Rattle.command_line.specs.internal.Commands.{IsCommand};
ghost use Rattle.command_line.specs.CommandLine.{bare_app, checking_app, packing_app, program_app, set_app};

use crate::ask_command::ask_command;
use crate::changes_command::changes_command;
use crate::check_command::check_command;
use crate::explain_command::explain_command;
use crate::fetch_command::fetch_command;
use crate::pack_command::pack_command;
use crate::prove_command::prove_command;
use crate::publish_command::publish_command;
use crate::query_command::query_command;
use crate::relay_command::relay_command;
use crate::serve_command::serve_command;
use clap::Command;
use std::alloc::{AllocError, Global};

/// What the help says of the program.
const ABOUT: &str = "Answers OpenStreetMap queries, and proves and checks the answers";

/// What `--version` prints after the program's name: the version, the edition that commands take unless told otherwise,
/// and the sum of the logic in which the program is proved. (Kits of several names have the same logic.)
const VERSION: &str = "0.1.0 (edition 2, logic dac8208d650f15bf)";

/// The command line of the program: one level of commands, of which one has to be there. `--help`, `-h`,
/// `--version` and `-V` are `clap`'s; there is no command `help`.
pub(crate) fn program_command<'a>(alloc: Global) -> Result<Command<'a>, AllocError>
    ensures { IfOk result (IsCommand program_app) }
{
    let program = packing_program(alloc)?;
    let program = and_command(program, serve_command(alloc))?;
    let program = and_command(program, relay_command(alloc))?;
    and_command(program, explain_command(alloc))
}

// Split off, as the next functions are: a long chain of calls is dear to prove.
/// The program without those that serve, and without `explain`.
fn packing_program<'a>(alloc: Global) -> Result<Command<'a>, AllocError>
    ensures { IfOk result (IsCommand packing_app) }
{
    let program = checking_program(alloc)?;
    let program = and_command(program, pack_command(alloc))?;
    and_command(program, query_command(alloc))
}

/// The program with the commands that read a set, and those that check answers.
fn checking_program<'a>(alloc: Global) -> Result<Command<'a>, AllocError>
    ensures { IfOk result (IsCommand checking_app) }
{
    let program = set_program(alloc)?;
    let program = and_command(program, check_command(alloc))?;
    and_command(program, fetch_command(alloc))
}

/// The program with the commands that read a set.
fn set_program<'a>(alloc: Global) -> Result<Command<'a>, AllocError>
    ensures { IfOk result (IsCommand set_app) }
{
    let program = and_command(bare_program(alloc), ask_command(alloc))?;
    let program = and_command(program, publish_command(alloc))?;
    let program = and_command(program, changes_command(alloc))?;
    and_command(program, prove_command(alloc))
}

/// The program without a command.
fn bare_program<'a>(alloc: Global) -> Command<'a>
    ensures { IsCommand bare_app result }
{
    Command::new(alloc, "osm_mirror")
        .about(ABOUT)
        .version(VERSION)
        .subcommand_required(true)
        .disable_help_subcommand(true)
}

/// The program with one more command, where there was memory for it.
fn and_command<'a>(
    program: Command<'a>,
    command: Result<Command<'a>, AllocError>,
) -> Result<Command<'a>, AllocError>
    requires program { (fields_of program).has_globals ≡ false }
    requires command { IfOk command (λ command. (fields_of command).has_globals ≡ false) }
    ensures local { IfOk result (λ program. (fields_of program).has_globals ≡ false) }
    ensures command { (app : App) → IfOk command.entry (λ command. app_of command ≡ app)
        → IfOk result (IsCommand (with_subcommand (app_of program.entry) app.top)) }
{
    program.subcommand(command?)
}
