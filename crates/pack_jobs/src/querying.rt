//! The command `query`.

ghost use Rattle.pack_jobs.specs.Jobs.{IsQuery};

use crate::server_querying::query_server;
use command_line::Job;
use http_ranges::{Target, read_target};
use node_pack::{PackFault, ReadAt};
use osm_commands::{CommandFault, Status};
use osm_forms::Form;
use osm_pack_changes::manifest_place;
use osm_packs::{Limits, NotAnswered, query, query_files};
use outside_shelf::Refused;
use pack_files::JoinedFiles;
use pack_head::{Head, read_head};
use std::cell::Cell;
use std::io::Write;
use system_files::{CleanOutput, Subject, refuse_head, tell_in_words, trouble_of};
use tcp_places::{PackFile, files_at, head_text, places_beside};
use tree_node::Digest;

/// How many bytes of nodes a query may read, if no limit is given.
pub(crate) const BYTE_LIMIT: u64 = 1_073_741_824;

/// Why a place that begins with `https://` is refused.
const TLS: &str =
    "https isn't spoken: put a local proxy before the server that speaks it, and name the proxy as http://HOST:PORT/PATH. The answer is checked in any case, so that no trust is needed in either";

/// Why a place that begins with `http://` is refused.
const MALFORMED: &str =
    "it isn't of the form http://HOST[:PORT]/PATH, in visible ASCII characters, without a user's name and without a fragment";

/// A query under a root, and how it is to be answered.
#[derive(Clone, Copy)]
pub(crate) struct Question<'a> {
    root: &'a Digest,
    pub(crate) text: &'a str,
    form: Form,
    pub(crate) limits: Limits,
}

impl Question<'_> {
    /// Finds the answer in a pack, and prints it.
    pub(crate) fn ask_pack<F: ReadAt + Drop>(
        self,
        rt: &HostRuntime,
        pack: F,
    ) -> Result<(), NotAnswered> {
        query(
            rt.alloc(),
            self.form,
            self.root,
            self.text.as_bytes(),
            self.limits,
            pack,
            &mut CleanOutput::new(rt),
        )
    }

    /// Finds the answer in the files of a head, which are read as one, and prints it.
    pub(crate) fn ask_files<F: ReadAt + Drop>(
        self,
        rt: &HostRuntime,
        head: &Head<'_>,
        files: Vec<F>,
    ) -> Result<(), NotAnswered> {
        query_files(
            rt.alloc(),
            self.form,
            self.root,
            self.text.as_bytes(),
            self.limits,
            JoinedFiles::new(rt.alloc(), files),
            &head.root,
            manifest_place(head),
            &mut CleanOutput::new(rt),
        )
    }
}

/// Starts `query`, as its job says.
pub fn start_query(rt: &HostRuntime, job: Job) -> Status
    requires { IsQuery job }
{
    let Job::Query {
        root,
        place,
        query: text,
        form,
        max_bytes,
        max_work,
    } = job
    else {
        unreachable!("the job is to query")
    };
    let question = Question {
        root: &root,
        text: &text,
        form,
        limits: Limits {
            bytes: Some(max_bytes.unwrap_or(BYTE_LIMIT)),
            work: max_work,
        },
    };
    match read_target(place.as_bytes()) {
        Target::File => query_file(rt, &place, question),
        Target::Http(address) => query_server(rt, &place, &address, question),
        Target::Tls => refuse_place(rt, &place, TLS),
        Target::Malformed => refuse_place(rt, &place, MALFORMED),
    }
}

/// Finds the answer in the pack of this file, or in the files of a head of this name.
fn query_file(rt: &HostRuntime, path: &str, question: Question<'_>) -> Status {
    let error = Cell::new(None);
    let Err(fault) = question.ask_pack(rt, PackFile::new(rt, path, &error)) else {
        return Status::Done;
    };
    if is_no_pack(fault) {
        // It may be a head.
        if let Ok(Some(text)) = head_text(rt.alloc(), &mut PackFile::new(rt, path, &error)) {
            return query_head(rt, path, &text, question);
        }
    }
    tell(rt, fault, path, question.text, error.get())
}

/// Finds the answer in the files that a head with this text names.
fn query_head(rt: &HostRuntime, path: &str, head: &[u8], question: Question<'_>) -> Status {
    let head = match read_head(rt.alloc(), head) {
        Ok(head) => head,
        Err(fault) => return refuse_head(rt, fault),
    };
    let error = Cell::new(None);
    let Ok(places) = places_beside(rt.alloc(), path, &head.files) else {
        return tell(rt, NotAnswered::Memory, path, question.text, None);
    };
    let Ok(files) = files_at(rt, &places, &error) else {
        return tell(rt, NotAnswered::Memory, path, question.text, None);
    };
    match question.ask_files(rt, &head, files) {
        Ok(()) => Status::Done,
        Err(fault) => tell(rt, fault, path, question.text, error.get()),
    }
}

/// How the program ends where a place is no place, as where any other word of the command line is wrong.
fn refuse_place(rt: &HostRuntime, place: &str, why: &str) -> Status {
    let errors = &mut rt.stderr();
    // Where standard error takes nothing, the status still tells.
    let _ = writeln!(
        errors,
        "error: invalid value '{place}' for '<PLACE>': {why}"
    );
    let _ = writeln!(errors, "\nFor more information, try '--help'.");
    Status::Refused
}

/// How the program ends with this fault. It is told in one line, and then in words where somebody looks.
pub(crate) fn tell(
    rt: &HostRuntime,
    fault: NotAnswered,
    place: &str,
    query: &str,
    error: Option<i32>,
) -> Status {
    // Where standard error takes nothing, the status still tells.
    let _ = writeln!(rt.stderr(), "{fault}");
    let subject = &Subject {
        front: &[],
        query: query.as_bytes(),
        troubles: &[trouble_of(place, error)],
    };
    match fault {
        NotAnswered::Query(fault) => tell_in_words(rt, CommandFault::Query(fault), subject),
        NotAnswered::Work => tell_in_words(rt, CommandFault::Work, subject),
        NotAnswered::Memory => tell_in_words(rt, CommandFault::Memory, subject),
        fault if is_of_device(fault) => tell_in_words(rt, CommandFault::Device, subject),
        _ => {}
    }
    fault.status()
}

/// Whether the file is no pack, by its first bytes.
pub(crate) fn is_no_pack(fault: NotAnswered) -> bool {
    matches!(fault, NotAnswered::Pack(PackFault::NotAPack))
}

/// Whether the pack's device failed, or the output.
pub(crate) fn is_of_device(fault: NotAnswered) -> bool {
    matches!(
        fault,
        NotAnswered::Pack(PackFault::Device)
            | NotAnswered::Node(Refused::Device)
            | NotAnswered::Device
    )
}
