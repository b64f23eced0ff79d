//! What a mirror's reply shows: the answer to a query, in a form, by the proof alone; or why there is none.
//!
//! The mirror isn't trusted. [`show`] looks at the root that the client holds and at the proof: what the mirror gives as the
//! answer isn't even looked at, since the proof alone gives it.
#![tactic(auto)]

mod judging;
mod mirror_fault;
mod shown;

pub use judging::show;
pub use mirror_fault::MirrorFault;
pub use shown::Shown;
