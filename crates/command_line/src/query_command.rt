//! The command `query ROOT PLACE QUERY [--form opl|json|xml] [--max-bytes BYTES] [--max-work N]`.

ghost use Rattle.std.specs.Prelude.{◌≡◌, ◌⊎◌, IfErr, IfOk, codes};
ghost use Rattle.clap.specs.Words.{first_of, found_of, rows_of};
ghost use Rattle.command_line.specs.Arguments.{text_of};
ghost use Rattle.command_line.specs.internal.Commands.{IsCommand};
ghost use Rattle.command_line.specs.QueryCommand.{query_app, query_name};
ghost use Rattle.command_line.specs.FormOption.{IsBadForm};
ghost use Rattle.command_line.specs.Jobs.{Gives};
ghost use Rattle.command_line.specs.RootArgument.{IsRootText};

use crate::arguments::{PLACE, QUERY, command_with, text_of};
use crate::form_option::{form_of, form_option};
use crate::job::Job;
use crate::max_bytes_option::{max_bytes_of, max_bytes_option};
use crate::max_work_option::{max_work_of, max_work_option};
use crate::root_argument::{ROOT, root_of};
use crate::words_fault::WordsFault;
use clap::{ArgMatches, Command};
use std::alloc::{AllocError, Global};

/// The name of the command.
pub(crate) const QUERY_PACK: &str = "query";

/// What the program's help says of the command.
const ABOUT: &str = "Finds the answer in a pack, trusting nothing in it, and prints it";

/// The command, as `clap` is told of it.
pub(crate) fn query_command<'a>(alloc: Global) -> Result<Command<'a>, AllocError>
    ensures { IfOk result (IsCommand query_app) }
{
    let arguments = [
        ROOT,
        PLACE,
        QUERY,
        form_option(),
        max_bytes_option(),
        max_work_option(),
    ];
    command_with(alloc, QUERY_PACK, ABOUT, &arguments)
}

/// What the matches of this command ask for. `BadRoot` where ROOT isn't 64 hexadecimal digits; where it is, `BadForm`
/// where the word after `--form` is none of `opl`, `json` and `xml`.
pub(crate) fn query_job(alloc: Global, matches: &ArgMatches<'_>) -> Result<Job, WordsFault>
    ensures given { IfOk result (λ job. Gives job query_name (rows_of (found_of matches.now))) }
    ensures refused { IfErr result (λ fault. (fault ≡ WordsFault.Memory)
        ⊎ (((fault ≡ WordsFault.BadRoot)
        × ¬ (IsRootText (text_of (codes "ROOT") (rows_of (found_of matches.now)))))
        ⊎ ((fault ≡ WordsFault.BadForm)
        × IsRootText (text_of (codes "ROOT") (rows_of (found_of matches.now)))
        × IsBadForm (first_of (codes "form") (rows_of (found_of matches.now)))))) }
{
    let root = root_of(alloc, matches)?;
    let form = form_of(matches)?;
    let place = text_of(alloc, matches, PLACE)?;
    let query = text_of(alloc, matches, QUERY)?;
    Ok(Job::Query {
        root,
        place,
        query,
        form,
        max_bytes: max_bytes_of(matches),
        max_work: max_work_of(matches),
    })
}
