//! The words, read.

ghost use Rattle.std.specs.Prelude.{◌≡◌, ◌≢◌, ◌⊎◌, [], Err, IfErr, IfOk, OnOk, Some, map, true};
ghost use Rattle.std.specs.String.{string_bytes};
ghost use Rattle.clap.specs.Words.{fault_of, found_of, kind_of, rows_of, subcommand_of, takes};
ghost use Rattle.command_line.specs.CommandLine.{program_app};
ghost use Rattle.command_line.specs.Jobs.{Gives, GivesMatch, HasBadEdition, HasBadForm, HasBadRoot};
ghost use Rattle.command_line.specs.internal.Commands.{IsCommandName};

use crate::ask_command::{ASK, ask_job};
use crate::changes_command::{CHANGES, changes_job};
use crate::check_command::{CHECK, check_job};
use crate::explain_command::{EXPLAIN, explain_job};
use crate::fetch_command::{FETCH, fetch_job};
use crate::job::Job;
use crate::pack_command::{PACK, pack_job};
use crate::program_command::program_command;
use crate::prove_command::{PROVE, prove_job};
use crate::publish_command::{PUBLISH, publish_job};
use crate::query_command::{QUERY_PACK, query_job};
use crate::relay_command::{RELAY, relay_job};
use crate::serve_command::{SERVE, serve_job};
use crate::words_fault::WordsFault;
use clap::ArgMatches;
use clap::error::ErrorKind;
use std::alloc::{AllocError, Global};

/// What the words ask for, the first of which is the program's own name.
///
/// The command and its texts are what `clap` makes of the words. A text that begins with `-` comes after
/// the word `--`.
///
/// # Errors
///
/// `Usage` with `clap`'s text, where the words are none of this command line, or ask for help. `BadRoot`
/// where the word ROOT of `check`, `fetch`, `query` or `relay` isn't 64 hexadecimal digits. `BadForm` where the word
/// after `--form` of `ask`, `fetch` or `query` is none of `opl`, `json` and `xml`; `fetch` and `query` look at ROOT before.
/// `BadEdition` where the word after `--edition` of `publish`, `prove`, `pack` or `serve` is neither `1` nor `2`, and where
/// `serve` is asked to take changes in edition 1. `Memory` where an allocation was refused.
pub fn read_words(alloc: Global, words: Vec<String>) -> Result<Job, WordsFault>
    ensures read { IfOk result
        (λ job. GivesMatch job (subcommand_of program_app (map string_bytes words.items))) }
    ensures accepted { OnOk result (fault_of program_app (map string_bytes words.items) ≡ []) }
    ensures refused { takes program_app (map string_bytes words.items) ≡ true
        → IfErr result (λ e. (e ≡ WordsFault.Memory) ⊎ ((e ≡ WordsFault.BadRoot)
        ⊎ ((e ≡ WordsFault.BadForm) ⊎ (e ≡ WordsFault.BadEdition)))) }
    ensures bad_root { result ≡ Err WordsFault.BadRoot
        → HasBadRoot (subcommand_of program_app (map string_bytes words.items)) }
    ensures bad_form { result ≡ Err WordsFault.BadForm
        → HasBadForm (subcommand_of program_app (map string_bytes words.items)) }
    ensures bad_edition { result ≡ Err WordsFault.BadEdition
        → HasBadEdition (subcommand_of program_app (map string_bytes words.items)) }
{
    let program = program_command(alloc)?;
    match program.try_get_matches_from(words.as_slice()) {
        Ok(matches) => match matches.subcommand() {
            Some((name, inner)) => job_of(alloc, name, inner),
            None => unreachable!("a command is required"),
        },
        Err(error) => Err(fault_from(alloc, &error)),
    }
}

/// What the matches of the command of this name ask for.
fn job_of(alloc: Global, name: &str, matches: &ArgMatches<'_>) -> Result<Job, WordsFault>
    requires { IsCommandName name.now }
    ensures given { IfOk result (λ job. Gives job name.now (rows_of (found_of matches.now))) }
    ensures refused { IfErr result (λ e. (e ≡ WordsFault.Memory)
        ⊎ (((e ≡ WordsFault.BadRoot) × HasBadRoot (Some (name.now, rows_of (found_of matches.now))))
        ⊎ (((e ≡ WordsFault.BadForm) × HasBadForm (Some (name.now, rows_of (found_of matches.now))))
        ⊎ ((e ≡ WordsFault.BadEdition)
        × HasBadEdition (Some (name.now, rows_of (found_of matches.now))))))) }
{
    match name {
        ASK => ask_job(alloc, matches),
        PUBLISH => publish_job(alloc, matches),
        CHANGES => Ok(changes_job(alloc, matches)?),
        PROVE => prove_job(alloc, matches),
        CHECK => check_job(alloc, matches),
        FETCH => fetch_job(alloc, matches),
        PACK => pack_job(alloc, matches),
        QUERY_PACK => query_job(alloc, matches),
        SERVE => serve_job(alloc, matches),
        RELAY => relay_job(alloc, matches),
        EXPLAIN => Ok(explain_job(alloc, matches)?),
        _ => unreachable!("each command has its arm"),
    }
}

/// The refusal of `clap`, with its text.
fn fault_from(alloc: Global, error: &clap::Error) -> WordsFault
    ensures no_bad_root { result ≢ WordsFault.BadRoot }
    ensures no_bad_form { result ≢ WordsFault.BadForm }
    ensures no_bad_edition { result ≢ WordsFault.BadEdition }
    ensures memory { kind_of error.now ≡ ErrorKind.OutOfMemory → result ≡ WordsFault.Memory }
{
    if error.kind() == ErrorKind::OutOfMemory {
        return WordsFault::Memory;
    }
    match error.to_string(alloc) {
        Ok(text) => WordsFault::Usage(text),
        Err(_) => WordsFault::Memory,
    }
}
