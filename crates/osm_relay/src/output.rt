//! What is written to a wire.

ghost use Rattle.std.specs.Prelude.{◌≡◌, ◌≤◌, drop, length, IsTrue, ◌↔◌, []};
ghost use Rattle.osm_relay.specs.internal.Texts.{bytes_of};
ghost use Rattle.osm_relay.specs.Pages.{starved};

use crate::starved::starved_response;
use std::marker::Model;

/// Some bytes.
#[derive(Drop)]
pub(crate) enum Text {
    /// These.
    Bytes(Vec<u8>),
    /// The response that says that memory ran out.
    Starved,
}

/// What is written to a wire. Contracts see it as the bytes that it hasn't taken yet.
#[derive(Drop)]
pub(crate) struct Output {
    text: Text,
    /// So many bytes of the text were taken.
    from: usize,
}

impl Model for Output {
    ghost use Rattle.std.specs.Prelude.{List, ℕ, drop, ◌≤◌, length};
    ghost use Rattle.osm_relay.specs.internal.Texts.{bytes_of};

    ghost Value = { List ℕ };

    ghost view = { λ output. drop output.from (bytes_of output.text) };

    ghost invariant = { λ output. output.from ≤ length (bytes_of output.text) };
}

impl Output {
    /// These bytes.
    pub(crate) fn new(bytes: Vec<u8>) -> Output
        ensures { result ≡ bytes.items }
    {
        Output {
            text: Text::Bytes(bytes),
            from: 0,
        }
    }

    /// The response that says that memory ran out. It takes none.
    pub(crate) fn starved() -> Output
        ensures { result ≡ starved }
    {
        Output {
            text: Text::Starved,
            from: 0,
        }
    }

    /// What is left.
    pub(crate) fn bytes(&self) -> &[u8]
        ensures { result.now ≡ self.now }
    {
        &bytes_of(&self.text)[self.from..]
    }

    /// Whether nothing is left.
    pub(crate) fn is_empty(&self) -> bool
        ensures { IsTrue result ↔ (self.now ≡ []) }
    {
        self.bytes().is_empty()
    }

    /// So many bytes were taken.
    pub(crate) fn advance(&mut self, count: usize)
        requires { count ≤ length self.old }
        ensures { self.new ≡ drop count self.old }
    {
        // What is left of it has so many bytes at least, so the sum fits.
        let _all = bytes_of(&self.text).len();
        self.from += count;
    }
}

fn bytes_of(text: &Text) -> &[u8]
    ensures { result.now ≡ bytes_of text.now }
{
    match text {
        Text::Bytes(text) => text,
        Text::Starved => starved_response(),
    }
}
