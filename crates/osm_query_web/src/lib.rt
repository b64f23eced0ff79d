//! The command `query` as a static library, for a page that has parts of a pack and fetches the parts that it needs: no mirror
//! answers, and no proof is checked.
//!
//! Bytes come in as slices, a place and a length each. [`osm_query_answer`] answers from the pieces of a pack that the page
//! has, or says which parts of it are missing; the page fetches them and calls again. [`osm_query_answer_in_files`] does so from the
//! files that a head names. Nothing that was fetched is trusted.
#![tactic(auto)]

mod answer;
mod call;
mod call_result;
mod exports;
mod handing;
mod missing;
mod piece;
mod pieces;
mod reader;
mod span;
mod stated;
mod table;
mod told;

pub use exports::{osm_query_answer, osm_query_answer_in_files};
pub use told::{BAD_FORM, BAD_PIECES, BAD_ROOT, MORE, NO, NO_MEMORY, TOO_SHORT, Told, YES};

#[cfg(test)]
mod tests;
