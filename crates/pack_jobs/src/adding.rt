//! The command `pack --add`.

use crate::heads::first_head;
use node_pack::PackFault;
use osm_codes::explain;
use osm_commands::{CommandFault, Status};
use osm_pack_changes::{NotAdded, add_to_pack};
use osm_packs::NotAnswered;
use pack_files::JoinedFiles;
use pack_head::{Head, HeadFault, is_head_name, read_head};
use pack_update::{AddFault, Readers};
use std::alloc::AllocError;
use std::cell::Cell;
use std::io::{IsTerminal, Write};
use std::path::Path;
use std::{fs, str};
use system_files::{
    CleanOutput, NOTHING, OutputFile, Subject, are_one_file, refuse_head, refuse_one_file,
    tell_in_words, trouble_of, watched_file,
};
use tcp_places::{PackFile, files_at, head_text, place_beside, places_beside};

/// Adds the changes of a file to the set of a pack, and tells the new root. The place is that of a head, or of a pack; the head of a
/// pack has its name with `.head` after it, and names the pack alone where it isn't there yet.
pub(crate) fn add_changes(rt: &HostRuntime, change_file: &str, place: &str) -> Status {
    let error = Cell::new(None);
    match head_text(rt.alloc(), &mut PackFile::new(rt, place, &error)) {
        Ok(Some(text)) => add_to_head(rt, change_file, place, &text),
        Ok(None) => add_beside(rt, change_file, place),
        Err(_) => tell_device(rt, place, error.get()),
    }
}

/// Adds changes to the set of a pack, which may have a head.
fn add_beside(rt: &HostRuntime, change_file: &str, pack: &str) -> Status {
    let alloc = rt.alloc();
    let Ok(head) = format!(in alloc; "{pack}.head") else {
        return tell(rt, NotAdded::Memory, &NOTHING);
    };
    // What can't be looked at may be a head all the same: nothing takes its place.
    if fs::exists(rt, &head).is_ok_and(|found| !found) {
        return add_first(rt, change_file, pack, &head);
    }
    let error = Cell::new(None);
    match head_text(alloc, &mut PackFile::new(rt, &head, &error)) {
        Ok(Some(text)) => add_to_head(rt, change_file, &head, &text),
        Ok(None) => refuse_head(rt, HeadFault::Line(1)),
        Err(_) => tell_device(rt, &head, error.get()),
    }
}

/// Adds changes to the set of a pack without a head, which is then written to this place.
fn add_first(rt: &HostRuntime, change_file: &str, pack: &str, place: &str) -> Status {
    let name = Path::new(pack).file_name().unwrap_or("").as_bytes();
    if !is_head_name(name) {
        return tell(rt, NotAdded::Name, &NOTHING);
    }
    let error = Cell::new(None);
    match first_head(rt, PackFile::new(rt, pack, &error), name) {
        Ok(head) => add_to(rt, change_file, place, &head),
        Err(PackFault::Device) => tell_device(rt, pack, error.get()),
        Err(PackFault::Memory) => tell(rt, NotAdded::Memory, &NOTHING),
        Err(fault) => {
            // Where standard error takes nothing, the status still tells.
            let _ = writeln!(rt.stderr(), "{fault}");
            NotAnswered::Pack(fault).status()
        }
    }
}

/// Adds changes to the set of a head with this text.
fn add_to_head(rt: &HostRuntime, change_file: &str, place: &str, text: &[u8]) -> Status {
    match read_head(rt.alloc(), text) {
        Ok(head) => add_to(rt, change_file, place, &head),
        Err(fault) => refuse_head(rt, fault),
    }
}

/// Adds changes to the set of this head, whose place is taken by the next one.
fn add_to(rt: &HostRuntime, change_file: &str, place: &str, head: &Head<'_>) -> Status {
    let Ok(name) = next_name(rt, head) else {
        return tell(rt, NotAdded::Memory, &NOTHING);
    };
    let Ok(beside) = place_beside(rt.alloc(), place, name.as_bytes()) else {
        return tell(rt, NotAdded::Memory, &NOTHING);
    };
    let further = str::from_utf8(&beside).unwrap_or("");
    for written in [further, place] {
        if are_one_file(rt, written, change_file) {
            return refuse_one_file(rt, written, change_file);
        }
    }
    let Ok(places) = places_beside(rt.alloc(), place, &head.files) else {
        return tell(rt, NotAdded::Memory, &NOTHING);
    };
    add_under(
        rt,
        change_file,
        place,
        head,
        &places,
        name.as_bytes(),
        further,
    )
}

/// The name of the next file: that of the pack, and the number.
fn next_name(rt: &HostRuntime, head: &Head<'_>) -> Result<String, AllocError> {
    let pack = match head.files.first() {
        Some(file) => str::from_utf8(file.name).unwrap_or(""),
        None => "",
    };
    let number = head.files.len();
    format!(in rt.alloc(); "{pack}.{number}")
}

/// Adds changes to the files of a head, which are at these places, by a further file of this name at its place.
fn add_under(
    rt: &HostRuntime,
    change_file: &str,
    place: &str,
    head: &Head<'_>,
    places: &[Vec<u8>],
    name: &[u8],
    further: &str,
) -> Status {
    let error = Cell::new(None);
    let Ok(files) = readers(rt, places, &error) else {
        return tell(rt, NotAdded::Memory, &NOTHING);
    };
    let mut changes = watched_file(rt, change_file);
    let further = &mut OutputFile::buffered(rt, further);
    let new_head = &mut OutputFile::new(rt, place);
    let outcome = add_to_pack(
        rt.alloc(),
        &mut changes,
        head,
        files,
        name,
        further,
        new_head,
        &mut CleanOutput::new(rt),
    );
    changes.clear();
    further.discard();
    new_head.discard();
    let Err(fault) = outcome else {
        return Status::Done;
    };
    let troubles = &[
        trouble_of(change_file, changes.error()),
        trouble_of(place, error.get()),
        further.trouble(),
        new_head.trouble(),
    ];
    let subject = &Subject {
        front: changes.front(),
        query: &[],
        troubles,
    };
    tell(rt, fault, subject)
}

/// The files at these places, three times, since each step reads them for itself.
fn readers<'a>(
    rt: &'a HostRuntime,
    places: &'a [Vec<u8>],
    error: &'a Cell<Option<i32>>,
) -> Result<Readers<JoinedFiles<PackFile<'a>>>, AllocError> {
    let alloc = rt.alloc();
    Ok(Readers {
        plan: JoinedFiles::new(alloc, files_at(rt, places, error)?),
        rebuild: JoinedFiles::new(alloc, files_at(rt, places, error)?),
        places: JoinedFiles::new(alloc, files_at(rt, places, error)?),
    })
}

/// How the program ends where the file at this place can't be read.
fn tell_device(rt: &HostRuntime, place: &str, error: Option<i32>) -> Status {
    let subject = &Subject {
        front: &[],
        query: &[],
        troubles: &[trouble_of(place, error)],
    };
    tell(rt, NotAdded::Device, subject)
}

/// How the program ends with this fault. It is told in one line, and then in words where somebody looks.
fn tell(rt: &HostRuntime, fault: NotAdded, subject: &Subject<'_>) -> Status {
    // Where standard error takes nothing, the status still tells.
    let _ = writeln!(rt.stderr(), "{fault}");
    match fault {
        NotAdded::Opl(load) => tell_in_words(rt, CommandFault::Opl(load), subject),
        NotAdded::Files(AddFault::Apply(fault)) => {
            tell_in_words(rt, CommandFault::Apply(fault), subject);
        }
        NotAdded::OtherRoot => tell_other_root(rt),
        NotAdded::Memory => tell_in_words(rt, CommandFault::Memory, subject),
        NotAdded::Device => tell_in_words(rt, CommandFault::Device, subject),
        NotAdded::ManyFiles | NotAdded::Name | NotAdded::Files(_) => {}
    }
    fault.status()
}

/// What it means that the changes give another root, where somebody looks.
fn tell_other_root(rt: &HostRuntime) {
    let errors = &mut rt.stderr();
    if errors.is_terminal()
        && let Some(row) = explain("I6")
    {
        let _ = writeln!(errors, "{}: {}", row.meaning, row.advice);
    }
}
