//! Changes that are added to files, and files that become one pack.

mod compacted;
mod devices;
mod larger;
mod published;
mod refused;
mod small;
