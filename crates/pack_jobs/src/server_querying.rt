//! The command `query` over files on a server.

use crate::querying::{BYTE_LIMIT, Question, is_no_pack, is_of_device, tell};
use http_ranges::{Address, HttpFile, NotGiven};
use memchr::memchr;
use osm_commands::Status;
use osm_packs::NotAnswered;
use pack_head::read_head;
use std::alloc::AllocError;
use std::cell::Cell;
use std::io::{IsTerminal, Write};
use std::str;
use system_files::refuse_head;
use tcp_places::{TcpWires, head_text, places_beside};

/// A server, and what went wrong there.
#[derive(Clone, Copy)]
struct Server<'a> {
    rt: &'a HostRuntime,
    /// The place of the pack or of the head, as the words name it.
    place: &'a str,
    /// The name of the server, with its port.
    host: &'a str,
    /// What the system said of the call that failed last.
    error: &'a Cell<Option<i32>>,
    /// Why the server gave no bytes.
    reason: &'a Cell<Option<NotGiven>>,
}

impl<'a> Server<'a> {
    /// The file at this address, of which so many bytes may be brought ahead.
    fn file(self, address: Address<'a>, budget: u64) -> HttpFile<'a, TcpWires<'a>> {
        let wires = TcpWires::new(self.rt, self.host, self.error);
        HttpFile::new(self.rt.alloc(), wires, address, budget, self.reason)
    }

    /// How the program ends with this fault, and why the server gave no bytes.
    fn tell(self, fault: NotAnswered, question: Question<'_>) -> Status {
        let status = tell(self.rt, fault, self.place, question.text, self.error.get());
        if is_of_device(fault) {
            tell_reason(self.rt, self.place, self.reason.get());
        }
        status
    }
}

/// Finds the answer in the pack at this address, or in the files of a head there.
pub(crate) fn query_server<'a>(
    rt: &'a HostRuntime,
    place: &'a str,
    address: &Address<'a>,
    question: Question<'_>,
) -> Status {
    let Ok(host) = host_of(rt, address) else {
        return tell(rt, NotAnswered::Memory, place, question.text, None);
    };
    let error = Cell::new(None);
    let reason = Cell::new(None);
    let server = Server {
        rt,
        place,
        host: &host,
        error: &error,
        reason: &reason,
    };
    let budget = question.limits.bytes.unwrap_or(BYTE_LIMIT);
    let Err(fault) = question.ask_pack(rt, server.file(*address, budget)) else {
        return Status::Done;
    };
    if is_no_pack(fault) {
        // It may be a head.
        if let Ok(Some(text)) = head_text(rt.alloc(), &mut server.file(*address, budget)) {
            return query_head(server, address, &text, question);
        }
    }
    server.tell(fault, question)
}

/// Finds the answer in the files that a head at this address names, which has this text.
fn query_head<'a>(
    server: Server<'a>,
    address: &Address<'a>,
    head: &[u8],
    question: Question<'_>,
) -> Status {
    let alloc = server.rt.alloc();
    let head = match read_head(alloc, head) {
        Ok(head) => head,
        Err(fault) => return refuse_head(server.rt, fault),
    };
    // The query after a head's path is the head's alone.
    let path = str::from_utf8(path_alone(address.path)).unwrap_or("");
    let Ok(paths) = places_beside(alloc, path, &head.files) else {
        return server.tell(NotAnswered::Memory, question);
    };
    let budget = question.limits.bytes.unwrap_or(BYTE_LIMIT);
    let mut files = Vec::new(alloc);
    for path in &paths {
        let address = Address {
            host: address.host,
            path,
        };
        if files.push(server.file(address, budget)).is_err() {
            return server.tell(NotAnswered::Memory, question);
        }
    }
    match question.ask_files(server.rt, &head, files) {
        Ok(()) => Status::Done,
        Err(fault) => server.tell(fault, question),
    }
}

/// The path of an address without the query after it.
fn path_alone(path: &[u8]) -> &[u8] {
    match memchr(b'?', path) {
        Some(mark) => &path[..mark],
        None => path,
    }
}

/// The name of the server with its port, which is 80 if none is given.
fn host_of(rt: &HostRuntime, address: &Address<'_>) -> Result<String, AllocError> {
    // It has visible ASCII characters only.
    let host = str::from_utf8(address.host).unwrap_or("");
    if address.has_port() {
        String::from_str(rt.alloc(), host)
    } else {
        format!(in rt.alloc(); "{host}:80")
    }
}

/// Why the server gave no bytes, where somebody looks.
fn tell_reason(rt: &HostRuntime, place: &str, reason: Option<NotGiven>) {
    let errors = &mut rt.stderr();
    if !errors.is_terminal() {
        return;
    }
    if let Some(reason) = reason {
        let _ = writeln!(errors, "{place}: {reason}");
    }
}
