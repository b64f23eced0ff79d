//! What the commands share: their files, and how they end.

use crate::in_words::{Subject, Trouble, tell_in_words};
use crate::input_file::InputFile;
use crate::progress::Progress;
use crate::watched::Watched;
use osm_commands::{CommandFault, Status};
use std::io;
use std::io::{ErrorKind, IsTerminal, Write};

/// No input, no query, no file.
pub const NOTHING: Subject<'static> = Subject {
    front: &[],
    query: &[],
    troubles: &[],
};

/// How the program ends after a command. A fault is told in one line, and then in words where somebody looks.
pub fn report(
    rt: &HostRuntime,
    outcome: Result<(), CommandFault>,
    subject: &Subject<'_>,
) -> Status {
    match outcome {
        Ok(()) => Status::Done,
        Err(fault) => {
            // Where standard error takes nothing, the status still tells.
            let _ = writeln!(rt.stderr(), "{fault}");
            tell_in_words(rt, fault, subject);
            fault.status()
        }
    }
}

/// How the program ends where one file has two names that a command may not have for one file.
pub fn refuse_one_file(rt: &HostRuntime, name: &str, other: &str) -> Status {
    let fault = CommandFault::Device;
    let errors = &mut rt.stderr();
    // Where standard error takes nothing, the status still tells.
    let _ = writeln!(errors, "{fault}");
    if errors.is_terminal() {
        let _ = writeln!(
            errors,
            "{name} and {other} are one file: what is written needs a file of its own"
        );
    }
    fault.status()
}

/// What the system said of a file or a socket of this name.
pub fn trouble_of(name: &str, error: Option<i32>) -> Trouble<'_> {
    Trouble { name, error }
}

/// A file whose reading is shown on a terminal.
pub fn watched_file<'a>(rt: &'a HostRuntime, path: &'a str) -> Watched<'a, InputFile<'a>> {
    Watched::new(InputFile::new(rt, path), Progress::of_file(rt, path))
}

/// A file whose reading isn't shown.
pub fn quiet_file<'a>(rt: &'a HostRuntime, path: &'a str) -> Watched<'a, InputFile<'a>> {
    Watched::new(InputFile::new(rt, path), Progress::none(rt))
}

/// How the program ends where it can't listen on this port. It says on which, and what the system says of that.
pub fn port_refused(rt: &HostRuntime, port: u16, error: &io::Error) -> Status {
    let fault = match error.kind() {
        ErrorKind::OutOfMemory => CommandFault::Memory,
        _ => CommandFault::Device,
    };
    let Ok(name) = format!(in rt.alloc(); "port {port}") else {
        return report(rt, Err(fault), &NOTHING);
    };
    let troubles = &[trouble_of(&name, error.raw_os_error())];
    report(
        rt,
        Err(fault),
        &Subject {
            front: &[],
            query: &[],
            troubles,
        },
    )
}
