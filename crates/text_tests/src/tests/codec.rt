//! Lines and files that are read, and lines that are written. Most rows are read and written by the program, in
//! tests/system.

mod changes;
mod files;
mod lines;
mod written;
