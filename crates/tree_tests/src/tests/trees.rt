//! Worked values from outside: the rows of docs/FORMATS.md, and trees of lists made by rule, computed by an
//! independent program.

mod building;
mod chance;
mod rebuilding;
mod rows;
mod strangers;
