//! Heads: what is read, what is refused and at which line, and what is written.

mod read;
mod refused;
mod written;
