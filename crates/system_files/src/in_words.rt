//! What a fault means, in words, below its line.

use osm_codes::{caret_lines, explain, file_hint, query_hint};
use osm_commands::CommandFault;
use std::alloc::AllocError;
use std::io;
use std::io::{IsTerminal, Write};

/// What the system said of a file or a socket.
#[derive(Clone, Copy)]
pub struct Trouble<'a> {
    /// The file's name, or what the socket is for.
    pub name: &'a str,
    /// The system's number of the last failure.
    pub error: Option<i32>,
}

/// What a fault can be about.
#[derive(Clone, Copy)]
pub struct Subject<'a> {
    /// The first bytes of the OPL input.
    pub front: &'a [u8],
    /// The text of the query.
    pub query: &'a [u8],
    /// The files and sockets that were used.
    pub troubles: &'a [Trouble<'a>],
}

/// Says what a fault means, on standard error, where that is a terminal: a program that reads the fault's line on a pipe
/// sees nothing else. Where memory runs out for these words, they are left out.
pub fn tell_in_words(rt: &HostRuntime, fault: CommandFault, subject: &Subject<'_>) {
    let errors = &mut rt.stderr();
    if !errors.is_terminal() {
        return;
    }
    if let Ok(words) = words_of(rt, fault, subject) {
        let _ = write!(errors, "{words}");
    }
}

/// The words for a fault, in lines that end with a line feed each.
fn words_of(
    rt: &HostRuntime,
    fault: CommandFault,
    subject: &Subject<'_>,
) -> Result<String, AllocError> {
    let alloc = rt.alloc();
    match fault {
        CommandFault::Opl(load) => {
            let code = format!(in alloc; "{}", load.fault.cause)?;
            let hint = match load.line {
                1 => file_hint(subject.front),
                _ => None,
            };
            meaning(rt, &code, hint)
        }
        CommandFault::Query(fault) => {
            let code = format!(in alloc; "{}", fault.cause)?;
            let byte = fault.byte.min(subject.query.len());
            let hint = query_hint(&code, &subject.query[byte..]);
            let mut words = caret_lines(alloc, subject.query, byte)?;
            words.push_str(&meaning(rt, &code, hint)?)?;
            Ok(words)
        }
        CommandFault::Device => troubles(rt, subject.troubles),
        other => {
            // The code comes first in the line.
            let line = format!(in alloc; "{other}")?;
            let code = line.as_str().split(' ').next().unwrap_or("");
            match explain(code) {
                Some(_) => meaning(rt, code, None),
                None => meaning(rt, &line, None),
            }
        }
    }
}

/// What a code means, and a hint that fits better than its advice, where there is one.
fn meaning(rt: &HostRuntime, code: &str, hint: Option<&str>) -> Result<String, AllocError> {
    let Some(row) = explain(code) else {
        return Ok(String::new(rt.alloc()));
    };
    let advice = hint.unwrap_or(row.advice);
    format!(in rt.alloc(); "{}: {}\n", row.meaning, advice)
}

/// What the system said of the files and sockets; in general where it said nothing.
fn troubles(rt: &HostRuntime, troubles: &[Trouble<'_>]) -> Result<String, AllocError> {
    let mut words = String::new(rt.alloc());
    for trouble in troubles {
        if let Some(code) = trouble.error {
            let error = io::Error::from_raw_os_error(code);
            let line = format!(in rt.alloc(); "{}: {error}\n", trouble.name)?;
            words.push_str(&line)?;
        }
    }
    if words.is_empty() {
        return meaning(rt, "device", None);
    }
    Ok(words)
}
