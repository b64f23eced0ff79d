//! The commands over four objects and their pack.

mod adding;
mod compacting;
mod failing_pack;
mod files_querying;
mod four_objects;
mod packing;
mod packing_within;
mod querying;
