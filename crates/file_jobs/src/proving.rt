//! The command `prove`.

ghost use Rattle.file_jobs.specs.Jobs.{IsProve};

use command_line::Job;
use osm_commands::{CommandFault, Status, prove};
use osm_keys::Edition;
use std::fs;
use system_files::{
    Building, CleanOutput, OutputFile, Subject, are_one_file, quiet_file, refuse_one_file, report,
    trouble_of, watched_file,
};

/// Starts `prove`, as its job says.
pub fn start_prove(rt: &HostRuntime, job: Job) -> Status
    requires { IsProve job }
{
    let Job::Prove {
        file,
        query_file,
        answer_file,
        proof_file,
        edition,
    } = job
    else {
        unreachable!("the job is to prove")
    };
    prove_files(rt, &file, &query_file, &answer_file, &proof_file, edition)
}

/// Writes the answer to the query of a file over the set of a file, and its proof, and tells the root. What is written may
/// not be read as well, nor written twice: that is refused before anything is read.
fn prove_files(
    rt: &HostRuntime,
    file: &str,
    query_file: &str,
    answer_file: &str,
    proof_file: &str,
    edition: Edition,
) -> Status {
    for other in [file, query_file, proof_file] {
        if are_one_file(rt, answer_file, other) {
            return refuse_one_file(rt, answer_file, other);
        }
    }
    for other in [file, query_file] {
        if are_one_file(rt, proof_file, other) {
            return refuse_one_file(rt, proof_file, other);
        }
    }
    prove_into(
        rt,
        file,
        query_file,
        &mut OutputFile::new(rt, answer_file),
        &mut OutputFile::new(rt, proof_file),
        edition,
    )
}

/// As `prove_files`, once the files are known to be different ones.
fn prove_into(
    rt: &HostRuntime,
    file: &str,
    query_file: &str,
    answer: &mut OutputFile<'_>,
    proof: &mut OutputFile<'_>,
    edition: Edition,
) -> Status {
    let mut input = watched_file(rt, file);
    let mut query = quiet_file(rt, query_file);
    let mut building = Building::new(rt);
    let output = &mut CleanOutput::new(rt);
    let outcome = prove(
        rt.alloc(),
        &mut input,
        &mut query,
        edition,
        &mut building,
        answer,
        proof,
        output,
    );
    input.clear();
    building.clear();
    answer.discard();
    proof.discard();
    let text = text_of_query(rt, query_file, &outcome);
    let troubles = &[
        trouble_of(file, input.error()),
        trouble_of(query_file, query.error()),
        answer.trouble(),
        proof.trouble(),
    ];
    let subject = &Subject {
        front: input.front(),
        query: &text,
        troubles,
    };
    report(rt, outcome, subject)
}

/// The text of a query that was refused, read once more from its file; nothing where another fault is told.
fn text_of_query(rt: &HostRuntime, path: &str, outcome: &Result<(), CommandFault>) -> Vec<u8> {
    match outcome {
        Err(CommandFault::Query(_)) => match fs::read(rt, path) {
            Ok(text) => text,
            Err(_) => Vec::new(rt.alloc()),
        },
        _ => Vec::new(rt.alloc()),
    }
}
