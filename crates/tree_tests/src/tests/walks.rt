//! Worked values from outside: the rows of docs/FORMATS.md, and nodes that no builder made.

mod ranges;
mod refusals;
mod walks;
