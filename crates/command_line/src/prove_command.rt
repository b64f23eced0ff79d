//! The command `prove FILE QUERYFILE ANSWERFILE PROOFFILE [--edition 1|2] [--sequence N]`.

ghost use Rattle.std.specs.Prelude.{◌≡◌, ◌⊎◌, IfErr, IfOk, codes};
ghost use Rattle.clap.specs.Words.{first_of, found_of, rows_of};
ghost use Rattle.command_line.specs.EditionOptions.{IsBadEdition};
ghost use Rattle.command_line.specs.internal.Commands.{IsCommand};
ghost use Rattle.command_line.specs.Jobs.{Gives};
ghost use Rattle.command_line.specs.ProveCommand.{prove_app, prove_name};

use crate::arguments::{Argument, FILE, Place, QUERY_FILE, Value, command_with, text_of};
use crate::edition_options::{edition_of, edition_option, sequence_option};
use crate::job::Job;
use crate::words_fault::WordsFault;
use clap::{ArgMatches, Command};
use std::alloc::{AllocError, Global};

/// The name of the command.
pub(crate) const PROVE: &str = "prove";

/// What the program's help says of the command.
const ABOUT: &str = "Writes the answer to a query and its proof, and prints the root of the set";

const ANSWER_FILE: Argument = Argument {
    name: "ANSWERFILE",
    help: "File that the answer is written to",
    place: Place::Positional,
    value: Value::AnyText,
};

const PROOF_FILE: Argument = Argument {
    name: "PROOFFILE",
    help: "File that the proof is written to",
    place: Place::Positional,
    value: Value::AnyText,
};

/// The command, as `clap` is told of it.
pub(crate) fn prove_command<'a>(alloc: Global) -> Result<Command<'a>, AllocError>
    ensures { IfOk result (IsCommand prove_app) }
{
    let arguments = [
        FILE,
        QUERY_FILE,
        ANSWER_FILE,
        PROOF_FILE,
        edition_option(),
        sequence_option(),
    ];
    command_with(alloc, PROVE, ABOUT, &arguments)
}

/// What the matches of this command ask for. `BadEdition` where the word after `--edition` is neither `1` nor `2`.
pub(crate) fn prove_job(alloc: Global, matches: &ArgMatches<'_>) -> Result<Job, WordsFault>
    ensures given { IfOk result (λ job. Gives job prove_name (rows_of (found_of matches.now))) }
    ensures refused { IfErr result (λ fault. (fault ≡ WordsFault.Memory)
        ⊎ ((fault ≡ WordsFault.BadEdition)
        × IsBadEdition (first_of (codes "edition") (rows_of (found_of matches.now))))) }
{
    let file = text_of(alloc, matches, FILE)?;
    let query_file = text_of(alloc, matches, QUERY_FILE)?;
    let answer_file = text_of(alloc, matches, ANSWER_FILE)?;
    let proof_file = text_of(alloc, matches, PROOF_FILE)?;
    let edition = edition_of(matches)?;
    Ok(Job::Prove {
        file,
        query_file,
        answer_file,
        proof_file,
        edition,
    })
}
