//! The command `check ROOT QUERYFILE ANSWERFILE PROOFFILE [--max-size BYTES] [--max-work N]`.

ghost use Rattle.std.specs.Prelude.{◌≡◌, ◌⊎◌, IfErr, IfOk, codes};
ghost use Rattle.clap.specs.Words.{found_of, rows_of};
ghost use Rattle.command_line.specs.Arguments.{text_of};
ghost use Rattle.command_line.specs.internal.Commands.{IsCommand};
ghost use Rattle.command_line.specs.CheckCommand.{check_app, check_name};
ghost use Rattle.command_line.specs.Jobs.{Gives};
ghost use Rattle.command_line.specs.RootArgument.{IsRootText};

use crate::arguments::{Argument, Place, QUERY_FILE, Value, command_with, text_of};
use crate::job::Job;
use crate::max_size_option::{max_size_of, max_size_option};
use crate::max_work_option::{max_work_of, max_work_option};
use crate::root_argument::{ROOT, root_of};
use crate::words_fault::WordsFault;
use clap::{ArgMatches, Command};
use std::alloc::{AllocError, Global};

/// The name of the command.
pub(crate) const CHECK: &str = "check";

/// What the program's help says of the command.
const ABOUT: &str = "Checks an answer by its proof and a root: prints 'yes', or 'no' and why";

const ANSWER_FILE: Argument = Argument {
    name: "ANSWERFILE",
    help: "File whose bytes are the answer",
    place: Place::Positional,
    value: Value::AnyText,
};

const PROOF_FILE: Argument = Argument {
    name: "PROOFFILE",
    help: "File whose bytes are the proof",
    place: Place::Positional,
    value: Value::AnyText,
};

/// The command, as `clap` is told of it.
pub(crate) fn check_command<'a>(alloc: Global) -> Result<Command<'a>, AllocError>
    ensures { IfOk result (IsCommand check_app) }
{
    let arguments = [
        ROOT,
        QUERY_FILE,
        ANSWER_FILE,
        PROOF_FILE,
        max_size_option(),
        max_work_option(),
    ];
    command_with(alloc, CHECK, ABOUT, &arguments)
}

/// What the matches of this command ask for. `BadRoot` where ROOT isn't 64 hexadecimal digits.
pub(crate) fn check_job(alloc: Global, matches: &ArgMatches<'_>) -> Result<Job, WordsFault>
    ensures given { IfOk result (λ job. Gives job check_name (rows_of (found_of matches.now))) }
    ensures refused { IfErr result (λ fault. (fault ≡ WordsFault.Memory)
        ⊎ ((fault ≡ WordsFault.BadRoot)
        × ¬ (IsRootText (text_of (codes "ROOT") (rows_of (found_of matches.now)))))) }
{
    let root = root_of(alloc, matches)?;
    let query_file = text_of(alloc, matches, QUERY_FILE)?;
    let answer_file = text_of(alloc, matches, ANSWER_FILE)?;
    let proof_file = text_of(alloc, matches, PROOF_FILE)?;
    Ok(Job::Check {
        root,
        query_file,
        answer_file,
        proof_file,
        max_size: max_size_of(matches),
        max_work: max_work_of(matches),
    })
}
