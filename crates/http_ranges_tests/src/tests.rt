//! Files on servers that a test plays. What the program makes of real ones is shown by tests/system.

mod addresses;
mod files;
mod reads;
mod refusals;
mod script;
