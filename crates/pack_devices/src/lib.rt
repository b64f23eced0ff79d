//! Devices for tests of packs: bytes far away, the pack of the nodes of a stock, and stores in memory.
#![tactic(auto)]

mod kept_runs;
mod remote;
mod stock_pack;

pub use kept_runs::{KeptRuns, KeptRunsMaker};
pub use remote::{Remote, Seen};
pub use stock_pack::pack_of;
