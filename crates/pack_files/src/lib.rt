//! Packs that consist of several files: a pack, and what was added to it.
//!
//! [`JoinedFiles`] reads them as one, in which each file begins at the offset of its number times 2^48. So a place, which has
//! the number of a file and an offset in it, is an offset in all of them together.
#![tactic(auto)]

mod joined;
mod laws;

pub use joined::JoinedFiles;
pub use laws::{fewer_law, first_law, further_law};
