//! What a server does besides answering: change files, looked for and published at a desk, and connections served one
//! after the other.
//!
//! A [`ChangeLookout`] looks for the change file of the next sequence number in a [`ChangeSource`], for the loop of many
//! connections that the program runs; [`RootLine`] says whether each file has to say which root it gives. [`serve`] and [`serve_desk`] take one connection after the other from a
//! [`Listener`]. Why a change file isn't published is a [`ChangesFault`].
#![tactic(auto)]

mod change_lookout;
mod change_source;
mod changes_fault;
mod changes_publisher;
mod desk_server;
mod listener;
mod publish_next;
mod root_line;
mod snapshot_server;

pub use change_lookout::ChangeLookout;
pub use change_source::ChangeSource;
pub use changes_fault::ChangesFault;
pub use changes_publisher::publish_changes;
pub use desk_server::serve_desk;
pub use listener::Listener;
pub use root_line::RootLine;
pub use snapshot_server::serve;
