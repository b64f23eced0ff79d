//! The parts of a reply.

/// The parts of a reply, as the mirror sent them. Nothing is checked of them but their lengths.
#[derive(Clone, Copy, Debug, PartialEq, Eq)]
pub struct Parts<'a> {
    /// The root that the mirror names, 32 bytes.
    pub root: &'a [u8],
    /// The answer.
    pub answer: &'a [u8],
    /// The proof.
    pub proof: &'a [u8],
}
