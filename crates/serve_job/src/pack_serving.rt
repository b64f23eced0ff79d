//! The command `serve` over a pack.

use crate::serving::{listen, report_served, serve_over};
use node_pack::{PackFault, ReadAt};
use osm_commands::{Status, pack_listening_line};
use osm_desk::NoLookout;
use osm_gate::Mirror;
use osm_pack_changes::manifest_place;
use osm_packs::NotAnswered;
use pack_files::JoinedFiles;
use pack_head::{Head, read_head};
use pack_mirror::PackMirror;
use std::cell::Cell;
use std::io::Write;
use system_files::{is_regular_file, port_refused, refuse_head};
use tcp_places::{PackFile, files_at, head_text, places_beside};

/// Serves the pack of this name on this port, or the files of a head. None where the file isn't a regular one, can't be read, or
/// begins neither as a pack nor as a head: then it may be an OPL text.
pub(crate) fn serve_if_pack(
    rt: &HostRuntime,
    file: &str,
    port: u16,
    connections: u32,
    max_work: Option<u64>,
    changes: Option<&str>,
) -> Option<Status> {
    if !is_regular_file(rt, file) {
        return None;
    }
    let error = Cell::new(None);
    match PackMirror::open(rt.alloc(), PackFile::new(rt, file, &error)) {
        Ok(mirror) => Some(match changes {
            Some(folder) => refuse_changes(rt, folder),
            None => serve_pack(rt, mirror, port, connections, max_work),
        }),
        Err(PackFault::NotAPack) => serve_if_head(rt, file, port, connections, max_work, changes),
        Err(PackFault::Device) => None,
        Err(fault) => Some(refuse_pack(rt, NotAnswered::Pack(fault))),
    }
}

/// Serves the files of a head of this name. None where the file doesn't begin as a head does.
fn serve_if_head(
    rt: &HostRuntime,
    file: &str,
    port: u16,
    connections: u32,
    max_work: Option<u64>,
    changes: Option<&str>,
) -> Option<Status> {
    let error = Cell::new(None);
    let text = match head_text(rt.alloc(), &mut PackFile::new(rt, file, &error)) {
        Ok(Some(text)) => text,
        Ok(None) | Err(_) => return None,
    };
    Some(match (read_head(rt.alloc(), &text), changes) {
        (Ok(_), Some(folder)) => refuse_changes(rt, folder),
        (Ok(head), None) => serve_head(rt, file, &head, port, connections, max_work),
        (Err(fault), _) => refuse_head(rt, fault),
    })
}

/// Serves the files of this head on this port.
fn serve_head(
    rt: &HostRuntime,
    place: &str,
    head: &Head<'_>,
    port: u16,
    connections: u32,
    max_work: Option<u64>,
) -> Status {
    let alloc = rt.alloc();
    let error = Cell::new(None);
    let Ok(places) = places_beside(alloc, place, &head.files) else {
        return refuse_pack(rt, NotAnswered::Memory);
    };
    let Ok(files) = files_at(rt, &places, &error) else {
        return refuse_pack(rt, NotAnswered::Memory);
    };
    let files = JoinedFiles::new(alloc, files);
    match PackMirror::open_at(alloc, files, head.root, manifest_place(head)) {
        Ok(mirror) => serve_pack(rt, mirror, port, connections, max_work),
        Err(fault) => refuse_pack(rt, NotAnswered::Pack(fault)),
    }
}

/// How the program ends where a file begins as a pack, and none can be read from it.
fn refuse_pack(rt: &HostRuntime, fault: NotAnswered) -> Status {
    // Where standard error takes nothing, the status still tells.
    let _ = writeln!(rt.stderr(), "{fault}");
    fault.status()
}

/// Serves a pack that was opened, or the files of a head, on this port.
fn serve_pack<F: ReadAt + Drop>(
    rt: &HostRuntime,
    mirror: PackMirror<F>,
    port: u16,
    connections: u32,
    max_work: Option<u64>,
) -> Status {
    match listen(rt, port, false) {
        Ok((sockets, address)) => {
            let line = pack_listening_line(rt.alloc(), address, mirror.root());
            let outcome = serve_over(rt, mirror, line, sockets, connections, max_work, NoLookout);
            report_served(rt, outcome)
        }
        Err(error) => port_refused(rt, port, &error),
    }
}

/// How the program ends where a pack is to take changes, as where any other word of the command line is wrong.
fn refuse_changes(rt: &HostRuntime, folder: &str) -> Status {
    let errors = &mut rt.stderr();
    // Where standard error takes nothing, the status still tells.
    let _ = writeln!(
        errors,
        "error: invalid value '{folder}' for '--changes <DIR>': a pack takes no changes: pack the changed set, and serve that"
    );
    let _ = writeln!(errors, "\nFor more information, try '--help'.");
    Status::Refused
}
