//! The commands of packs: `pack` writes one, from memory or within bounds ([`pack_within`]), and `query` finds the answer to a
//! query in one, or in the files that a head names ([`query_files`]).
//!
//! Nothing in a pack is trusted, and no mirror is asked: [`query()`] writes the query's meaning under the root that the client
//! holds, or says why it doesn't.
#![tactic(auto)]

mod answer_text;
mod bounded_pack;
mod files_query;
mod limits;
mod not_answered;
mod pack_command;
mod query_command;

pub use bounded_pack::pack_within;
pub use files_query::query_files;
pub use limits::Limits;
pub use not_answered::NotAnswered;
pub use pack_command::pack;
pub use query_command::query;
