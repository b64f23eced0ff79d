//! How long clients may take, and how often the system is asked.

/// How long a client may keep its connection without sending a byte, or without taking one, in seconds.
pub(crate) const IDLE_SECONDS: u64 = 10;

/// How many bytes of an answer a client has to take in each [`IDLE_SECONDS`], once it is behind.
pub(crate) const PACE_BYTES: u64 = 1_048_576;

/// How long a client may take to send a request, from its first byte on, in seconds.
pub(crate) const REQUEST_SECONDS: u64 = 60;

/// How long a connection that was let go is read on, in seconds.
pub(crate) const LINGER_SECONDS: u64 = 2;

/// How many reads a connection that was let go has at most.
pub(crate) const LINGER_READS: u32 = 32;

/// How many connections that were let go are read on at most.
pub(crate) const LINGER_LIMIT: usize = 64;

/// How often those that are silent are looked for, in milliseconds.
pub(crate) const SWEEP_MILLISECONDS: u64 = 500;
