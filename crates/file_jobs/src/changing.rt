//! The command `changes`.

use osm_changes::changes;
use osm_commands::Status;
use system_files::{
    Building, CleanOutput, OutputFile, Subject, Trouble, are_one_file, quiet_file, refuse_one_file,
    report, trouble_of, watched_file,
};

/// Ends a file of changes with the root that they give, and tells that root. The file may not be that of the set.
pub fn change_file(rt: &HostRuntime, file: &str, sequence: u64, change_path: &str) -> Status {
    if are_one_file(rt, change_path, file) {
        return refuse_one_file(rt, change_path, file);
    }
    let mut input = watched_file(rt, file);
    let mut changed = quiet_file(rt, change_path);
    let mut building = Building::new(rt);
    let mut announced = OutputFile::new(rt, change_path);
    let outcome = changes(
        rt.alloc(),
        &mut input,
        sequence,
        &mut changed,
        &mut building,
        &mut announced,
        &mut CleanOutput::new(rt),
    );
    input.clear();
    building.clear();
    announced.discard();
    let troubles: &[Trouble<'_>] = &[
        trouble_of(file, input.error()),
        trouble_of(change_path, changed.error()),
        announced.trouble(),
    ];
    report(
        rt,
        outcome,
        &Subject {
            front: input.front(),
            query: &[],
            troubles,
        },
    )
}
