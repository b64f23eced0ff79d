//! The command `serve`.

ghost use Rattle.std.specs.Prelude.{◌≡◌};
ghost use Rattle.serve_job.specs.internal.Faults.{fault_of_traffic};
ghost use Rattle.serve_job.specs.Jobs.{IsServe};

use crate::change_folder::ChangeFolder;
use crate::pack_serving::serve_if_pack;
use command_line::Job;
use osm_commands::{CommandFault, Status, WholeLines, listening_line, read_snapshot};
use osm_desk::{Desk, Lookout};
use osm_gate::Mirror;
use osm_index::Snapshot;
use osm_keys::Edition;
use osm_serving::ChangeLookout;
use osm_sockets::Sockets;
use osm_traffic::{TrafficFault, serve_many};
use std::alloc::AllocError;
use std::io;
use std::io::Write;
use std::net::SocketAddr;
use std::time::Duration;
use system_files::{
    Building, NOTHING, ServerErrors, Subject, port_refused, report, tell_in_words, trouble_of,
    watched_file,
};

/// How often change files are looked for while connections are kept, in milliseconds.
const LOOK_MILLISECONDS: u64 = 250;

/// Starts `serve`, as its job says.
pub fn start_serve(rt: &HostRuntime, job: Job) -> Status
    requires { IsServe job }
{
    let Job::Serve {
        file,
        port,
        connections,
        max_work,
        edition,
        changes,
        strict_changes,
    } = job
    else {
        unreachable!("the job is to serve")
    };
    // A unit for systemd can only leave a word empty.
    let folder = match changes.as_deref() {
        Some(folder) if !folder.is_empty() => Some(folder),
        _ => None,
    };
    if let Some(status) = serve_if_pack(rt, &file, port, connections, max_work, folder) {
        return status;
    }
    serve_file(
        rt,
        &file,
        port,
        connections,
        max_work,
        edition,
        folder,
        strict_changes,
    )
}

/// Serves the set of this file on this port, with the changes of this folder if there is one, each of which has to say which
/// root it gives where that is asked for. A query that takes more work than this is refused, if there is a limit.
fn serve_file(
    rt: &HostRuntime,
    file: &str,
    port: u16,
    connections: u32,
    max_work: Option<u64>,
    edition: Edition,
    changes: Option<&str>,
    is_strict: bool,
) -> Status {
    let mut input = watched_file(rt, file);
    let mut building = Building::new(rt);
    let read = read_snapshot(rt.alloc(), &mut input, edition, &mut building);
    input.clear();
    building.clear();
    let fault = match read {
        Ok(snapshot) => {
            return serve_snapshot(
                rt,
                snapshot,
                port,
                connections,
                max_work,
                changes,
                is_strict,
            );
        }
        Err(fault) => fault,
    };
    let troubles = &[trouble_of(file, input.error())];
    report(
        rt,
        Err(fault),
        &Subject {
            front: input.front(),
            query: &[],
            troubles,
        },
    )
}

/// Serves a snapshot on this port.
fn serve_snapshot(
    rt: &HostRuntime,
    snapshot: Snapshot,
    port: u16,
    connections: u32,
    max_work: Option<u64>,
    changes: Option<&str>,
    is_strict: bool,
) -> Status {
    match listen(rt, port, changes.is_some()) {
        Ok((sockets, address)) => {
            let folder = ChangeFolder::new(rt, changes);
            let lookout = if is_strict {
                ChangeLookout::strict(rt.alloc(), folder)
            } else {
                ChangeLookout::new(rt.alloc(), folder)
            };
            let line = listening_line(rt.alloc(), address, &snapshot);
            let outcome = serve_over(rt, snapshot, line, sockets, connections, max_work, lookout);
            report_served(rt, outcome)
        }
        Err(error) => port_refused(rt, port, &error),
    }
}

/// Sockets that listen on this port, and where that is. Where there are changes to look for, they are looked for four
/// times a second.
pub(crate) fn listen(
    rt: &HostRuntime,
    port: u16,
    has_changes: bool,
) -> io::Result<(Sockets<'_>, SocketAddr)> {
    let looks = if has_changes {
        Some(Duration::from_millis(LOOK_MILLISECONDS))
    } else {
        None
    };
    let sockets = Sockets::open(rt, port, looks)?;
    let address = sockets.address()?;
    Ok((sockets, address))
}

/// Serves a set, however it is held, over sockets that listen. At first it says this line, which tells where they listen and
/// over what. A line that standard error can't take at once is dropped.
pub(crate) fn serve_over<M: Mirror + Drop, L: Lookout<M> + Drop>(
    rt: &HostRuntime,
    mirror: M,
    line: Result<String, AllocError>,
    mut sockets: Sockets<'_>,
    connections: u32,
    max_work: Option<u64>,
    mut lookout: L,
) -> Result<(), CommandFault> {
    let alloc = rt.alloc();
    let line = line?;
    let mut errors = WholeLines::new(ServerErrors::new(rt));
    // Where standard error takes nothing, it serves all the same.
    let _ = write!(errors, "{line}");
    let mut desk = Desk::new(alloc, mirror);
    match serve_many(
        alloc,
        &mut desk,
        &mut lookout,
        &mut sockets,
        connections,
        max_work,
        &mut errors,
    ) {
        Ok(()) => {
            sockets.settle();
            Ok(())
        }
        Err(fault) => Err(fault_of_traffic(fault)),
    }
}

/// What sockets that give no further connection are to the command: those that never end are a device that failed.
fn fault_of_traffic(fault: TrafficFault) -> CommandFault
    ensures { result ≡ fault_of_traffic fault }
{
    match fault {
        TrafficFault::Memory => CommandFault::Memory,
        TrafficFault::Device | TrafficFault::Endless => CommandFault::Device,
    }
}

/// How the program ends after it has served. Its last line, too, is dropped where standard error can't take it at once.
pub(crate) fn report_served(rt: &HostRuntime, outcome: Result<(), CommandFault>) -> Status {
    match outcome {
        Ok(()) => Status::Done,
        Err(fault) => {
            let mut errors = WholeLines::new(ServerErrors::new(rt));
            let _ = writeln!(errors, "{fault}");
            tell_in_words(rt, fault, &NOTHING);
            fault.status()
        }
    }
}
