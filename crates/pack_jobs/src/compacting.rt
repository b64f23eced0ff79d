//! The command `pack --compact`.

use crate::heads::first_head;
use node_pack::PackFault;
use osm_commands::{CommandFault, Status};
use osm_pack_changes::{NotCompacted, compact_pack};
use osm_packs::NotAnswered;
use pack_compact::CompactFault;
use pack_files::JoinedFiles;
use pack_head::{Head, read_head};
use scratch_files::ScratchFolder;
use std::cell::Cell;
use std::io::Write;
use std::path::Path;
use std::str;
use system_files::{
    CleanOutput, NOTHING, OutputFile, Subject, are_one_file, refuse_head, refuse_one_file,
    tell_in_words, trouble_of,
};
use tcp_places::{PackFile, files_at, head_text, places_beside};

/// Writes the set of a head, or of a pack, as one file anew, and tells the root. So many bytes are held in memory, and the others in
/// files of a folder. The new pack may take the place of none of the files that are read: that is refused before they are.
pub(crate) fn compact(
    rt: &HostRuntime,
    place: &str,
    pack: &str,
    scratch: ScratchFolder<'_>,
    memory: u64,
) -> Status {
    if are_one_file(rt, pack, place) {
        return refuse_one_file(rt, pack, place);
    }
    let error = Cell::new(None);
    match head_text(rt.alloc(), &mut PackFile::new(rt, place, &error)) {
        Ok(Some(text)) => match read_head(rt.alloc(), &text) {
            Ok(head) => compact_head(rt, place, &head, pack, scratch, memory),
            Err(fault) => refuse_head(rt, fault),
        },
        Ok(None) => compact_alone(rt, place, pack, scratch, memory),
        Err(_) => tell_device(rt, place, error.get()),
    }
}

/// Writes the set of a pack alone anew.
fn compact_alone(
    rt: &HostRuntime,
    place: &str,
    pack: &str,
    scratch: ScratchFolder<'_>,
    memory: u64,
) -> Status {
    let name = Path::new(place).file_name().unwrap_or("").as_bytes();
    let error = Cell::new(None);
    match first_head(rt, PackFile::new(rt, place, &error), name) {
        Ok(head) => compact_head(rt, place, &head, pack, scratch, memory),
        Err(PackFault::Device) => tell_device(rt, place, error.get()),
        Err(PackFault::Memory) => tell(rt, NotCompacted::Memory, &NOTHING),
        Err(fault) => {
            // Where standard error takes nothing, the status still tells.
            let _ = writeln!(rt.stderr(), "{fault}");
            NotAnswered::Pack(fault).status()
        }
    }
}

/// Writes the set of a head at this place anew.
fn compact_head(
    rt: &HostRuntime,
    place: &str,
    head: &Head<'_>,
    pack: &str,
    scratch: ScratchFolder<'_>,
    memory: u64,
) -> Status {
    let Ok(places) = places_beside(rt.alloc(), place, &head.files) else {
        return tell(rt, NotCompacted::Memory, &NOTHING);
    };
    for file in &places {
        let file = str::from_utf8(file).unwrap_or("");
        if are_one_file(rt, pack, file) {
            return refuse_one_file(rt, pack, file);
        }
    }
    compact_files(rt, place, head, &places, pack, scratch, memory)
}

/// Writes the set of a head, whose files are at these places, anew.
fn compact_files(
    rt: &HostRuntime,
    place: &str,
    head: &Head<'_>,
    places: &[Vec<u8>],
    pack: &str,
    scratch: ScratchFolder<'_>,
    memory: u64,
) -> Status {
    let error = Cell::new(None);
    let Ok(files) = files_at(rt, places, &error) else {
        return tell(rt, NotCompacted::Memory, &NOTHING);
    };
    let written = &mut OutputFile::buffered(rt, pack);
    let outcome = compact_pack(
        rt.alloc(),
        head,
        &mut JoinedFiles::new(rt.alloc(), files),
        scratch,
        [scratch; 4],
        usize::try_from(memory).unwrap_or(usize::MAX),
        written,
        &mut CleanOutput::new(rt),
    );
    written.discard();
    let Err(fault) = outcome else {
        return Status::Done;
    };
    let scratch_error = match fault {
        NotCompacted::Device => scratch.error(),
        _ => None,
    };
    let troubles = &[
        trouble_of(place, error.get()),
        written.trouble(),
        trouble_of(scratch.path(), scratch_error),
    ];
    let subject = &Subject {
        front: &[],
        query: &[],
        troubles,
    };
    tell(rt, fault, subject)
}

/// How the program ends where the file at this place can't be read.
fn tell_device(rt: &HostRuntime, place: &str, error: Option<i32>) -> Status {
    let subject = &Subject {
        front: &[],
        query: &[],
        troubles: &[trouble_of(place, error)],
    };
    tell(rt, NotCompacted::Device, subject)
}

/// How the program ends with this fault. It is told in one line, and then in words where somebody looks.
fn tell(rt: &HostRuntime, fault: NotCompacted, subject: &Subject<'_>) -> Status {
    // Where standard error takes nothing, the status still tells.
    let _ = writeln!(rt.stderr(), "{fault}");
    match fault {
        NotCompacted::Files(CompactFault::Clash) => {
            tell_in_words(rt, CommandFault::Clash, subject);
        }
        NotCompacted::Memory => tell_in_words(rt, CommandFault::Memory, subject),
        NotCompacted::Device => tell_in_words(rt, CommandFault::Device, subject),
        NotCompacted::Files(_) => {}
    }
    fault.status()
}
