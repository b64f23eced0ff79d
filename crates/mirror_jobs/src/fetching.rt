//! The command `fetch`.

ghost use Rattle.mirror_jobs.specs.Jobs.{IsFetch};

use command_line::Job;
use mirror_answer::MirrorFault;
use osm_commands::{CommandFault, Status};
use osm_fetch::{NotFetched, fetch};
use osm_forms::Form;
use std::io;
use std::io::{IsTerminal, Write};
use system_files::{CleanOutput, Subject, Trouble, tell_in_words};
use tcp_places::TcpDial;
use tree_node::Digest;

/// How many bytes answer and proof may have together, if no limit is given.
const SIZE_LIMIT: u64 = 1_073_741_824;

/// How many bytes stand before the answer: the root and the answer's length.
const PREFIX_SIZE: u64 = 40;

/// Starts `fetch`, as its job says.
pub fn start_fetch(rt: &HostRuntime, job: Job) -> Status
    requires { IsFetch job }
{
    let Job::Fetch {
        root,
        mirror,
        query,
        form,
        max_size,
        max_work,
    } = job
    else {
        unreachable!("the job is to fetch")
    };
    fetch_answer(rt, &root, &mirror, &query, form, max_size, max_work)
}

/// Asks the mirror at this place for the answer to a query, and writes it once its proof was checked.
fn fetch_answer(
    rt: &HostRuntime,
    root: &Digest,
    place: &str,
    query: &str,
    form: Form,
    max_size: Option<u64>,
    max_work: Option<u64>,
) -> Status {
    let mut dial = TcpDial::new(rt, place);
    let outcome = fetch(
        rt.alloc(),
        form,
        root,
        place,
        query.as_bytes(),
        max_size.unwrap_or(SIZE_LIMIT).saturating_add(PREFIX_SIZE),
        max_work,
        &mut dial,
        &mut CleanOutput::new(rt),
    );
    let Err(fault) = outcome else {
        return Status::Done;
    };
    // Where standard error takes nothing, the status still tells.
    let _ = writeln!(rt.stderr(), "{fault}");
    explain_fault(rt, fault, place, query, dial.error());
    fault.status()
}

/// What the fault means, in words, where somebody looks.
fn explain_fault(
    rt: &HostRuntime,
    fault: NotFetched,
    place: &str,
    query: &str,
    error: Option<i32>,
) {
    let subject = &Subject {
        front: &[],
        query: query.as_bytes(),
        troubles: &[Trouble { name: place, error }],
    };
    match fault {
        NotFetched::Query(fault) => tell_in_words(rt, CommandFault::Query(fault), subject),
        NotFetched::Memory => tell_in_words(rt, CommandFault::Memory, subject),
        NotFetched::Device => tell_in_words(rt, CommandFault::Device, subject),
        NotFetched::Mirror(MirrorFault::Unreached | MirrorFault::Silent) => {
            tell_of_system(rt, place, error);
        }
        NotFetched::Mirror(MirrorFault::Work) => tell_in_words(rt, CommandFault::Work, subject),
        NotFetched::Mirror(_) => {}
    }
}

/// What the system said of the mirror's connection, where somebody looks and it said something.
fn tell_of_system(rt: &HostRuntime, place: &str, error: Option<i32>) {
    let errors = &mut rt.stderr();
    if !errors.is_terminal() {
        return;
    }
    if let Some(code) = error {
        let said = io::Error::from_raw_os_error(code);
        let _ = writeln!(errors, "{place}: {said}");
    }
}
