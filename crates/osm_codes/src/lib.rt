//! The codes that the program prints, and those that its parts tell each other, in words.
//!
//! [`explain`] looks a code up: what it means, where it is told and what to do about it. The rows of one subject
//! stand in a file of their own. docs/FORMATS.md has an index of the same codes.
#![tactic(auto)]

mod caret;
mod explanation;
mod hint;
mod lines;
mod model;
mod opl;
mod query;
mod serving;
mod sets;
mod trees;
mod verdicts;

pub use caret::caret_lines;
pub use explanation::{Explanation, explain};
pub use hint::{file_hint, query_hint};
