//! A desk: the connections that are open over one mirror. Over a snapshot, publications change it.
//!
//! A [`Desk`] takes one event after the other: a connection is opened, a piece of its bytes arrives, it ends, or changes
//! are published. Each connection gets what it would get alone: the laws say so over what happens, whatever the others
//! do in between. [`Desk::serve_on`] drives one connection over a reader and a writer. A [`Lookout`] looks for changes to
//! publish; [`NoLookout`] finds none.
#![tactic(auto)]

mod desk;
mod desk_fault;
mod event;
mod laws;
mod limits;
mod lookout;
mod no_lookout;
mod open_connection;
mod serving;

pub use desk::Desk;
pub use desk_fault::DeskFault;
pub use event::Event;
pub use laws::{
    each_is_told_its_own, events_tell_each_its_own, limits_law, one_outcome, others_change_nothing,
    runs_tell_each_its_own, success_carries_the_root,
};
pub use limits::CONNECTION_LIMIT;
pub use lookout::Lookout;
pub use no_lookout::NoLookout;
