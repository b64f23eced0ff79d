//! Responses as rows, and the faults of dials.

mod dials;
mod memory;
mod requests;
mod responses;
mod rows;
