//! What a desk is told of.

use opl_codec::Change;

/// An event at a desk. Connections have numbers, which the caller chooses.
#[derive(Drop)]
pub enum Event {
    /// The connection of this number is opened.
    Open(u32),
    /// A piece of the connection's bytes has arrived; it may be cut anywhere.
    Arrive(u32, Vec<u8>),
    /// The connection has ended, and its number is free again. What is left of a request is forgotten.
    End(u32),
    /// These changes are published: the snapshot is changed for all connections.
    Publish(Vec<Change>),
}
