//! The plain answer to every query: slow and simple, to compare faster answers with.
//!
//! A set of references is computed for each filter and each recursion, over the list of all objects, as the meaning of
//! queries says it.
#![tactic(auto)]

mod answer;
mod chains;
mod filter;
mod found;
mod links;
mod neighbours;
mod object_test;
mod print;
mod recurse;
mod run;
mod select;
mod step;
mod written;

pub use answer::answer_plain;
