//! Heads that are none.

use osm_commands::Status;
use pack_head::HeadFault;
use std::io::Write;

/// How the program ends where a text begins as a head does, and is none: the line that is wrong is told.
pub fn refuse_head(rt: &HostRuntime, fault: HeadFault) -> Status {
    // Where standard error takes nothing, the status still tells.
    let _ = writeln!(rt.stderr(), "{fault}");
    match fault {
        HeadFault::Line(_) => Status::Refused,
        HeadFault::Memory => Status::Failed,
    }
}
