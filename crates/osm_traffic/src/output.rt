//! What one connection has coming.

ghost use Rattle.std.specs.Prelude.{◌≡◌, ◌++◌, ◌<◌, ◌≤◌, ◌↔◌, ℕ, IsTrue, List, length, drop, []};
ghost use Rattle.osm_gate.specs.Serving.{no_memory};
ghost use Rattle.osm_traffic.specs.internal.Texts.{bytes_of};

use osm_gate::{Chunks, Unsent, no_memory_response};
use std::marker::Model;

/// What is left to be written to a connection.
#[derive(Drop)]
pub(crate) enum Text {
    /// The rest of a fixed text.
    Fixed(&'static [u8]),
    /// The rest of answers.
    Answers(Unsent),
}

/// What a connection has coming. Contracts see it as the bytes that its socket hasn't taken yet.
#[derive(Drop)]
pub(crate) struct Output {
    text: Text,
    /// The connection ends once all is taken.
    is_last: bool,
}

impl Model for Output {
    ghost use Rattle.std.specs.Prelude.{List, ℕ};
    ghost use Rattle.osm_traffic.specs.internal.Texts.{bytes_of};

    ghost Value = { List ℕ };

    ghost view = { λ output. bytes_of output.text };
}

impl Output {
    /// Nothing.
    pub(crate) fn new() -> Output
        ensures { result ≡ [] }
    {
        Output {
            text: Text::Fixed(b""),
            is_last: false,
        }
    }

    /// These answers.
    pub(crate) fn answers(chunks: Chunks, is_last: bool) -> Output
        ensures { result ≡ chunks }
    {
        Output {
            text: Text::Answers(Unsent::new(chunks)),
            is_last,
        }
    }

    /// That memory ran out. It takes none.
    pub(crate) fn apology() -> Output
        ensures { result ≡ no_memory }
    {
        Output {
            text: Text::Fixed(no_memory_response()),
            is_last: true,
        }
    }

    /// What is left of the first chunk; nothing only where nothing is left at all.
    pub(crate) fn bytes(&self) -> &[u8]
        ensures front { (rest : List ℕ) × (self.now ≡ result.now ++ rest) }
        ensures some { 0 < length self.now → 0 < length result.now }
    {
        match &self.text {
            Text::Fixed(text) => text,
            Text::Answers(unsent) => unsent.bytes(),
        }
    }

    /// Whether nothing is left.
    pub(crate) fn is_empty(&self) -> bool
        ensures { IsTrue result ↔ (self.now ≡ []) }
    {
        self.bytes().is_empty()
    }

    /// Becomes that output.
    pub(crate) fn become_output(&mut self, output: Output)
        ensures { self.new ≡ output }
    {
        *self = output;
    }

    /// Whether the connection ends once all is taken.
    pub(crate) fn is_last(&self) -> bool {
        self.is_last
    }

    /// So many bytes were taken. The memory of each chunk is free again once all of it is taken.
    pub(crate) fn advance(&mut self, count: usize)
        requires { count ≤ length self.old }
        ensures { self.new ≡ drop count self.old }
    {
        match &mut self.text {
            Text::Fixed(text) => *text = &text[count..],
            Text::Answers(unsent) => unsent.advance(count),
        }
    }
}
