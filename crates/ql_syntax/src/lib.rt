//! Queries of the Overpass query language, as far as the profile goes, read from text.
//!
//! A place in a text is what is left of it from there on. Each reader of a token takes a text whose
//! front is to be read, and gives what it found and what is left, or an error: a cause, and the place.
#![tactic(auto)]

mod area;
mod cause;
mod escape;
mod fault;
mod filter;
mod format;
mod gap;
mod laws;
mod level;
mod list;
mod name;
mod number;
mod out_options;
mod out_word;
mod parser;
mod path;
mod pick;
mod ql_text;
mod query;
mod quoted;
mod recursion;
mod round;
mod selection;
mod selector;
mod selector_word;
mod setting_word;
mod settings;
mod statement;
mod statement_word;
mod statements;
mod syntax_error;
mod tag_filter;
mod token;
mod token_kind;
mod token_readers;
mod whole;
mod word;

pub use cause::QlCause;
pub use fault::QlFault;
pub use filter::Filter;
pub use format::Format;
pub use laws::{
    fault_place, faults_are_not_memory, lawful_queries, limits_law, never_both, one_fault,
    one_format, one_language, one_of_both, one_query, stops_within,
};
pub use name::Name;
pub use parser::parse;
pub use path::Path;
pub use pick::Pick;
pub use ql_text::QlText;
pub use query::Query;
pub use recursion::Recursion;
pub use settings::asked_format;
pub use statement::{Out, Stmt};
