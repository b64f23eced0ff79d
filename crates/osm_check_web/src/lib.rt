//! The checker as a static library: [`osm_check::check`] and [`osm_check::tell`] for callers that have numbers and one
//! memory, as a page has that runs it as WebAssembly, and C.
//!
//! Bytes come in as slices, a place and a length each. A verdict goes out as a number, and the rest of it as what
//! [`Told`] has; a document goes out into a slice of the caller's. `web/build` makes `out/osm_check.wasm` of this library.
#![tactic(auto)]

mod documents;
mod exports;
mod told;

pub use documents::osm_check_tell;
pub use exports::osm_check_verdict;
pub use told::{BAD_FORM, BAD_ROOT, NO, NO_MEMORY, TOO_SHORT, Told, YES};

#[cfg(test)]
mod tests;
