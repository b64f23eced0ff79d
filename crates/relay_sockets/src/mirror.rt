//! Mirrors by their names.

use mirror_reply::is_host;
use std::alloc::AllocError;
use std::net::{SocketAddr, ToSocketAddrs};
use thiserror::Error;

/// A mirror: its name, as it stands in the field `Host` of a request, and where it is.
#[derive(Drop)]
pub struct Mirror {
    pub(crate) host: String,
    pub(crate) address: SocketAddr,
}

/// Why a mirror isn't found by its name.
#[derive(Debug, Drop, Error)]
pub enum MirrorError {
    /// The name can't stand in a request.
    #[error("no name of a host and a port")]
    Name,
    /// The system knows no address of this name.
    #[error("no address")]
    Unknown,
    /// Memory was refused.
    #[error("no memory")]
    Memory,
}

impl Mirror {
    /// The mirror of this name, as `mirror.example:8080`. The system is asked for its address, once, and may take its time;
    /// the first one that it tells is taken.
    pub fn find(rt: &HostRuntime, host: &str) -> Result<Mirror, MirrorError> {
        if !is_host(host) {
            return Err(MirrorError::Name);
        }
        let Ok(mut addresses) = host.to_socket_addrs(rt) else {
            return Err(MirrorError::Unknown);
        };
        let Some(address) = addresses.next() else {
            return Err(MirrorError::Unknown);
        };
        match String::from_str(rt.alloc(), host) {
            Ok(host) => Ok(Mirror { host, address }),
            Err(AllocError) => Err(MirrorError::Memory),
        }
    }
}
