//! The command `ask QUERY [--form opl|json|xml]`.

ghost use Rattle.std.specs.Prelude.{◌≡◌, ◌⊎◌, IfErr, IfOk, codes};
ghost use Rattle.clap.specs.Words.{first_of, found_of, rows_of};
ghost use Rattle.command_line.specs.internal.Commands.{IsCommand};
ghost use Rattle.command_line.specs.AskCommand.{ask_app, ask_name};
ghost use Rattle.command_line.specs.FormOption.{IsBadForm};
ghost use Rattle.command_line.specs.Jobs.{Gives};

use crate::arguments::{QUERY, command_with, text_of};
use crate::form_option::{form_of, form_option};
use crate::job::Job;
use crate::words_fault::WordsFault;
use clap::{ArgMatches, Command};
use std::alloc::{AllocError, Global};

/// The name of the command.
pub(crate) const ASK: &str = "ask";

/// What the program's help says of the command.
const ABOUT: &str =
    "Answers a query over the OPL text on standard input, after checking the answer";

/// The command, as `clap` is told of it.
pub(crate) fn ask_command<'a>(alloc: Global) -> Result<Command<'a>, AllocError>
    ensures { IfOk result (IsCommand ask_app) }
{
    command_with(alloc, ASK, ABOUT, &[QUERY, form_option()])
}

/// What the matches of this command ask for. `BadForm` where the word after `--form` is none of `opl`, `json` and `xml`.
pub(crate) fn ask_job(alloc: Global, matches: &ArgMatches<'_>) -> Result<Job, WordsFault>
    ensures given { IfOk result (λ job. Gives job ask_name (rows_of (found_of matches.now))) }
    ensures refused { IfErr result (λ fault. (fault ≡ WordsFault.Memory)
        ⊎ ((fault ≡ WordsFault.BadForm)
        × IsBadForm (first_of (codes "form") (rows_of (found_of matches.now))))) }
{
    let form = form_of(matches)?;
    let query = text_of(alloc, matches, QUERY)?;
    Ok(Job::Ask { query, form })
}
