//! The program `osm_mirror`: an Overpass query server whose answers can be checked.
//!
//! Its commands are those of `osm_commands`. What stands here fetches the words, and starts the command that they ask for,
//! which gets its files and sockets in `file_jobs`, `pack_jobs`, `serve_job` and `mirror_jobs`.
#![tactic(auto)]

use command_line::{Job, WordsFault, read_words};
use file_jobs::{change_file, start_check, start_prove};
use mirror_jobs::{start_fetch, start_relay};
use osm_codes::explain;
use osm_commands::{CommandFault, Status, ask, publish};
use osm_forms::Form;
use osm_keys::Edition;
use pack_jobs::{start_pack, start_query};
use serve_job::start_serve;
use std::env;
use std::io::{ErrorKind, IsTerminal, Write};
use std::process::ExitCode;
use system_files::{
    Building, CleanOutput, NOTHING, Progress, Subject, Watched, report, trouble_of, watched_file,
};

/// What `clap` says of a word that isn't UTF-8. Such a word never gets as far as `clap` here.
const NOT_TEXT: &str = "error: invalid UTF-8 was detected in one or more arguments\n";

fn main(rt: HostRuntime) -> ExitCode {
    ExitCode::from(run(&rt).code())
}

/// Does what the words ask for, and tells of a fault on standard error.
fn run(rt: &HostRuntime) -> Status {
    match read_job(rt) {
        Ok(job) => run_job(rt, job),
        Err(WordsFault::Usage(text)) => {
            // The text ends with a line feed of its own.
            let _ = write!(rt.stderr(), "{text}");
            Status::Refused
        }
        Err(fault @ (WordsFault::BadRoot | WordsFault::BadForm | WordsFault::BadEdition)) => {
            let _ = writeln!(rt.stderr(), "{fault}");
            Status::Refused
        }
        Err(WordsFault::Memory) => report(rt, Err(CommandFault::Memory), &NOTHING),
    }
}

/// Runs the command with its files.
fn run_job(rt: &HostRuntime, job: Job) -> Status {
    match job {
        Job::Ask { query, form } => ask_input(rt, &query, form),
        Job::Publish { file, edition } => publish_file(rt, &file, edition),
        Job::Changes {
            file,
            sequence,
            change_file: path,
        } => change_file(rt, &file, sequence, &path),
        Job::Prove { .. } => start_prove(rt, job),
        Job::Check { .. } => start_check(rt, job),
        Job::Fetch { .. } => start_fetch(rt, job),
        Job::Pack { .. } => start_pack(rt, job),
        Job::Query { .. } => start_query(rt, job),
        Job::Serve { .. } => start_serve(rt, job),
        Job::Relay { .. } => start_relay(rt, job),
        Job::Explain { code } => explain_code(rt, &code),
    }
}

/// Answers the query over the objects that standard input holds.
fn ask_input(rt: &HostRuntime, query: &str, form: Form) -> Status {
    if rt.stdin().is_terminal() {
        let _ = writeln!(rt.stderr(), "waiting for OPL on standard input");
    }
    let mut input = Watched::new(rt.stdin(), Progress::of_stream(rt));
    let mut building = Building::new(rt);
    let outcome = ask(
        rt.alloc(),
        form,
        query.as_bytes(),
        &mut input,
        &mut building,
        &mut CleanOutput::new(rt),
    );
    input.clear();
    building.clear();
    let troubles = &[trouble_of("standard input", input.error())];
    report(
        rt,
        outcome,
        &Subject {
            front: input.front(),
            query: query.as_bytes(),
            troubles,
        },
    )
}

/// Tells the root of the set of this file.
fn publish_file(rt: &HostRuntime, file: &str, edition: Edition) -> Status {
    let mut input = watched_file(rt, file);
    let mut building = Building::new(rt);
    let outcome = publish(
        rt.alloc(),
        &mut input,
        edition,
        &mut building,
        &mut CleanOutput::new(rt),
    );
    input.clear();
    building.clear();
    let troubles = &[trouble_of(file, input.error())];
    report(
        rt,
        outcome,
        &Subject {
            front: input.front(),
            query: &[],
            troubles,
        },
    )
}

/// Says what a code means.
fn explain_code(rt: &HostRuntime, code: &str) -> Status {
    match explain(code) {
        Some(row) => match writeln!(rt.stdout(), "{row}") {
            Ok(()) => Status::Done,
            Err(_) => report(rt, Err(CommandFault::Device), &NOTHING),
        },
        None => {
            let _ = writeln!(rt.stderr(), "no such code");
            Status::Refused
        }
    }
}

/// What the words of the command line ask for.
fn read_job(rt: &HostRuntime) -> Result<Job, WordsFault> {
    read_words(rt.alloc(), read_args(rt)?)
}

/// The words of the command line, the program's own name first.
fn read_args(rt: &HostRuntime) -> Result<Vec<String>, WordsFault> {
    match env::args(rt) {
        Ok(words) => Ok(words.collect(rt.alloc())?),
        Err(error) if error.kind() == ErrorKind::OutOfMemory => Err(WordsFault::Memory),
        Err(_) => Err(WordsFault::Usage(String::from_str(rt.alloc(), NOT_TEXT)?)),
    }
}
