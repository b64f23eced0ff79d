//! Objects, lines and files of OPL, queries and their plans, lengths, responses, and sets of references.

mod codec;
mod lengths;
mod model;
mod plans;
mod responses;
mod sets;
mod syntax;
