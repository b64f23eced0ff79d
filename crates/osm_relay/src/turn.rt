//! What a conversation waits for, and what it did.

/// What a conversation waits for.
#[derive(Clone, Copy, Debug, PartialEq, Eq)]
pub enum Awaits {
    /// That the client sends its request.
    Request,
    /// That the mirror takes the request.
    Mirror,
    /// That the mirror sends its response.
    Reply,
    /// That the client takes its response.
    Client,
    /// Nothing: it is over.
    Nothing,
}

/// What a turn did.
#[derive(Clone, Copy, Debug, PartialEq, Eq)]
pub enum Turn {
    /// So many bytes came or went, perhaps none, and there may be more to do at once.
    Moved(usize),
    /// Nothing: a wire has to be waited for.
    Waits,
}
