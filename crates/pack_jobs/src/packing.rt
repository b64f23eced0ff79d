//! The command `pack`.

ghost use Rattle.pack_jobs.specs.Jobs.{IsPack};

use crate::adding::add_changes;
use crate::compacting::compact;
use command_line::Job;
use osm_commands::{CommandFault, Status};
use osm_keys::Edition;
use osm_packs::pack_within;
use scratch_files::ScratchFolder;
use std::fs;
use std::io::Write;
use std::path::Path;
use system_files::{
    Building, CleanOutput, OutputFile, Subject, are_one_file, refuse_one_file, report, trouble_of,
    watched_file,
};

/// Starts `pack`, as its job says.
pub fn start_pack(rt: &HostRuntime, job: Job) -> Status
    requires { IsPack job }
{
    let Job::Pack {
        file,
        pack_file: place,
        add,
        compact: is_compacting,
        memory,
        temp,
        edition,
    } = job
    else {
        unreachable!("the job is to pack")
    };
    if add && is_compacting {
        return refuse_both(rt);
    }
    if add {
        return add_changes(rt, &file, &place);
    }
    let folder = match &temp {
        // (as for a path, which an empty name leaves as it is)
        Some(folder) if folder.as_str().is_empty() => ".",
        Some(folder) => folder.as_str(),
        None => folder_of(rt, &place),
    };
    let scratch = ScratchFolder::new(rt, folder);
    if is_compacting {
        return compact(rt, &file, &place, scratch, memory);
    }
    pack_file(rt, &file, &place, scratch, memory, edition)
}

/// How the program ends where it should both add changes and write a pack anew, as where other words of the command line don't go
/// together.
fn refuse_both(rt: &HostRuntime) -> Status {
    let errors = &mut rt.stderr();
    // Where standard error takes nothing, the status still tells.
    let _ = writeln!(
        errors,
        "error: the argument '--add' cannot be used with '--compact'"
    );
    let _ = writeln!(errors, "\nFor more information, try '--help'.");
    Status::Refused
}

/// The folder of a file that is written; the one where the program runs, where something else has this name, as a pipe.
fn folder_of<'a>(rt: &HostRuntime, place: &'a str) -> &'a str {
    if let Ok(found) = fs::metadata(rt, place)
        && !found.is_file()
    {
        return ".";
    }
    match Path::new(place).parent() {
        Some(folder) if !folder.as_str().is_empty() => folder.as_str(),
        _ => ".",
    }
}

/// Writes the pack of the set of a file, and tells the root. So many bytes of the set are held in memory, and the others in
/// files of a folder. The pack may not take the place of the set: that is refused before anything is read.
fn pack_file(
    rt: &HostRuntime,
    file: &str,
    place: &str,
    scratch: ScratchFolder<'_>,
    memory: u64,
    edition: Edition,
) -> Status {
    if are_one_file(rt, place, file) {
        return refuse_one_file(rt, place, file);
    }
    let place = &mut OutputFile::buffered(rt, place);
    pack_into(rt, file, place, scratch, memory, edition)
}

/// As `pack_file`, once the files are known to be different ones.
fn pack_into(
    rt: &HostRuntime,
    file: &str,
    place: &mut OutputFile<'_>,
    scratch: ScratchFolder<'_>,
    memory: u64,
    edition: Edition,
) -> Status {
    let mut input = watched_file(rt, file);
    let mut building = Building::new(rt);
    let outcome = pack_within(
        rt.alloc(),
        &mut input,
        edition,
        &mut building,
        scratch,
        [scratch; 4],
        usize::try_from(memory).unwrap_or(usize::MAX),
        place,
        &mut CleanOutput::new(rt),
    );
    input.clear();
    building.clear();
    place.discard();
    let scratch_error = match outcome {
        Err(CommandFault::Device) => scratch.error(),
        _ => None,
    };
    let troubles = &[
        trouble_of(file, input.error()),
        place.trouble(),
        trouble_of(scratch.path(), scratch_error),
    ];
    let subject = &Subject {
        front: input.front(),
        query: &[],
        troubles,
    };
    report(rt, outcome, subject)
}
