//! The command `relay`.

ghost use Rattle.mirror_jobs.specs.Jobs.{IsRelay};

use crate::root_file::RootFile;
use command_line::Job;
use osm_commands::{CommandFault, Status, WholeLines, root_line};
use osm_relay::{RelayFault, Roots, relay_many};
use relay_sockets::{Mirror, MirrorError, Sockets};
use std::alloc::AllocError;
use std::io::{IsTerminal, Write};
use std::net::SocketAddr;
use system_files::{NOTHING, ServerErrors, port_refused, report};
use tree_node::Digest;

/// Starts `relay`, as its job says.
pub fn start_relay(rt: &HostRuntime, job: Job) -> Status
    requires { IsRelay job }
{
    let Job::Relay {
        root,
        mirror,
        fallbacks,
        port,
        root_file,
        connections,
        max_work,
    } = job
    else {
        unreachable!("the job is to relay")
    };
    relay_clients(
        rt,
        root,
        &mirror,
        &fallbacks,
        port,
        root_file.as_deref(),
        connections,
        max_work,
    )
}

/// Serves this number of clients on this port, with what the mirrors at these places have proved under the root that is in
/// force: the one that is given, or that a file tells. Each check of a proof has this budget, if there is one.
fn relay_clients(
    rt: &HostRuntime,
    root: Digest,
    place: &str,
    fallbacks: &[String],
    port: u16,
    root_file: Option<&str>,
    connections: u32,
    max_work: Option<u64>,
) -> Status {
    let mirrors = match find_mirrors(rt, place, fallbacks) {
        Ok(mirrors) => mirrors,
        Err(fault) => return report(rt, Err(fault), &NOTHING),
    };
    let sockets = match Sockets::open(rt, port, mirrors) {
        Ok(sockets) => sockets,
        Err(error) => return port_refused(rt, port, &error),
    };
    let address = match sockets.address() {
        Ok(address) => address,
        Err(error) => return port_refused(rt, port, &error),
    };
    let roots = RootFile::new(rt, root_file, root);
    let outcome = relay_over(rt, roots, place, sockets, address, connections, max_work);
    report(rt, outcome, &NOTHING)
}

/// The mirrors at these places. One that isn't found is told where somebody looks.
fn find_mirrors(
    rt: &HostRuntime,
    place: &str,
    fallbacks: &[String],
) -> Result<Vec<Mirror>, CommandFault> {
    let Ok(mut mirrors) = Vec::with_capacity(rt.alloc(), fallbacks.len().saturating_add(1)) else {
        return Err(CommandFault::Memory);
    };
    add_mirror(rt, &mut mirrors, place)?;
    for fallback in fallbacks {
        add_mirror(rt, &mut mirrors, fallback.as_str())?;
    }
    Ok(mirrors)
}

fn add_mirror(
    rt: &HostRuntime,
    mirrors: &mut Vec<Mirror>,
    place: &str,
) -> Result<(), CommandFault> {
    match Mirror::find(rt, place) {
        Ok(mirror) => match mirrors.push(mirror) {
            Ok(()) => Ok(()),
            Err(_) => Err(CommandFault::Memory),
        },
        Err(MirrorError::Memory) => Err(CommandFault::Memory),
        Err(error) => {
            let errors = &mut rt.stderr();
            if errors.is_terminal() {
                let _ = writeln!(errors, "{place}: {error}");
            }
            Err(CommandFault::Device)
        }
    }
}

/// Serves clients over sockets that listen at this address, within this budget. At first it says where, and which mirror
/// is asked under which root. A line that standard error can't take at once is dropped.
fn relay_over(
    rt: &HostRuntime,
    mut roots: RootFile<'_>,
    place: &str,
    mut sockets: Sockets<'_>,
    address: SocketAddr,
    connections: u32,
    max_work: Option<u64>,
) -> Result<(), CommandFault> {
    let line = first_line(rt, &roots.root(), place, address)?;
    let mut errors = WholeLines::new(ServerErrors::new(rt));
    // Where standard error takes nothing, it serves all the same.
    let _ = write!(errors, "{line}");
    match relay_many(rt.alloc(), &mut roots, &mut sockets, connections, max_work) {
        Ok(()) => {
            sockets.settle();
            Ok(())
        }
        Err(RelayFault::Memory) => Err(CommandFault::Memory),
        Err(RelayFault::Device | RelayFault::Endless) => Err(CommandFault::Device),
    }
}

fn first_line(
    rt: &HostRuntime,
    root: &Digest,
    place: &str,
    address: SocketAddr,
) -> Result<String, AllocError> {
    let alloc = rt.alloc();
    let digits = root_line(alloc, root)?;
    format!(in alloc; "osm_mirror listens on {address}, relays {place}, root {digits}")
}
