//! Fetching from mirrors that a test plays. What the program makes of real ones is shown by tests/system.

mod fake_dial;
mod fetches;
mod mirrors;
mod replies;
