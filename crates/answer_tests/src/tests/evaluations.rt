//! Answers, lookups, openings and sinks.

mod answers;
mod budgets;
mod contradictions;
mod counting;
mod fetches;
mod lookups;
mod opening;
mod sink;
