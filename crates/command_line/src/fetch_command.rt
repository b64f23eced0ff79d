//! The command `fetch ROOT HOST:PORT QUERY [--form opl|json|xml] [--max-size BYTES] [--max-work N]`.

ghost use Rattle.std.specs.Prelude.{◌≡◌, ◌⊎◌, IfErr, IfOk, codes};
ghost use Rattle.clap.specs.Words.{first_of, found_of, rows_of};
ghost use Rattle.command_line.specs.Arguments.{text_of};
ghost use Rattle.command_line.specs.internal.Commands.{IsCommand};
ghost use Rattle.command_line.specs.FetchCommand.{fetch_app, fetch_name};
ghost use Rattle.command_line.specs.FormOption.{IsBadForm};
ghost use Rattle.command_line.specs.Jobs.{Gives};
ghost use Rattle.command_line.specs.RootArgument.{IsRootText};

use crate::arguments::{MIRROR, QUERY, command_with, text_of};
use crate::form_option::{form_of, form_option};
use crate::job::Job;
use crate::max_size_option::{max_size_of, max_size_option};
use crate::max_work_option::{max_work_of, max_work_option};
use crate::root_argument::{ROOT, root_of};
use crate::words_fault::WordsFault;
use clap::{ArgMatches, Command};
use std::alloc::{AllocError, Global};

/// The name of the command.
pub(crate) const FETCH: &str = "fetch";

/// What the program's help says of the command.
const ABOUT: &str = "Asks a mirror, checks its proof on this machine and prints the answer";

/// The command, as `clap` is told of it.
pub(crate) fn fetch_command<'a>(alloc: Global) -> Result<Command<'a>, AllocError>
    ensures { IfOk result (IsCommand fetch_app) }
{
    let arguments = [
        ROOT,
        MIRROR,
        QUERY,
        form_option(),
        max_size_option(),
        max_work_option(),
    ];
    command_with(alloc, FETCH, ABOUT, &arguments)
}

/// What the matches of this command ask for. `BadRoot` where ROOT isn't 64 hexadecimal digits; where it is, `BadForm`
/// where the word after `--form` is none of `opl`, `json` and `xml`.
pub(crate) fn fetch_job(alloc: Global, matches: &ArgMatches<'_>) -> Result<Job, WordsFault>
    ensures given { IfOk result (λ job. Gives job fetch_name (rows_of (found_of matches.now))) }
    ensures refused { IfErr result (λ fault. (fault ≡ WordsFault.Memory)
        ⊎ (((fault ≡ WordsFault.BadRoot)
        × ¬ (IsRootText (text_of (codes "ROOT") (rows_of (found_of matches.now)))))
        ⊎ ((fault ≡ WordsFault.BadForm)
        × IsRootText (text_of (codes "ROOT") (rows_of (found_of matches.now)))
        × IsBadForm (first_of (codes "form") (rows_of (found_of matches.now)))))) }
{
    let root = root_of(alloc, matches)?;
    let form = form_of(matches)?;
    let mirror = text_of(alloc, matches, MIRROR)?;
    let query = text_of(alloc, matches, QUERY)?;
    Ok(Job::Fetch {
        root,
        mirror,
        query,
        form,
        max_size: max_size_of(matches),
        max_work: max_work_of(matches),
    })
}
