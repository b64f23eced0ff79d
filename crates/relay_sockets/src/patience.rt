//! How long clients and mirrors may take, and how often the system is asked.

/// How long a client that is waited for may send and take nothing, in seconds.
pub(crate) const IDLE_SECONDS: u64 = 10;

/// How many bytes of its response a client has to take in each [`IDLE_SECONDS`].
pub(crate) const PACE_BYTES: u64 = 1_048_576;

/// How long a mirror may send and take nothing, in seconds: it may have much to work out.
pub(crate) const MIRROR_IDLE_SECONDS: u64 = 60;

/// How many bytes more a mirror has to give in each [`IDLE_SECONDS`] after that.
pub(crate) const MIRROR_PACE_BYTES: u64 = 65_536;

/// How long a client may take to send its request, in seconds.
pub(crate) const REQUEST_SECONDS: u64 = 60;

/// How long a client that was let go is read on, in seconds.
pub(crate) const LINGER_SECONDS: u64 = 2;

/// How many reads a client that was let go has at most.
pub(crate) const LINGER_READS: u32 = 32;

/// How many clients that were let go are read on at most.
pub(crate) const LINGER_LIMIT: usize = 64;

/// How often those that are silent are looked for, in milliseconds.
pub(crate) const SWEEP_MILLISECONDS: u64 = 500;
