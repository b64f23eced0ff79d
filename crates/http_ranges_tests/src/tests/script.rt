//! A server that gives bytes that a test wrote.

use http_ranges::{Transfer, WIRES, Wires};
use std::cell::Cell;

/// How many bytes a text may have that comes in small pieces.
const LONG: usize = 10_000;

/// What a server gives on its connections, in the order in which they are opened, and how many calls go well. On each it has
/// some texts: as many of them come as requests were sent, and then it closes the connection.
#[derive(Drop)]
pub(crate) struct Script<'a> {
    given: &'a [Vec<Vec<u8>>],
    /// How many bytes one receive gives at most. A text of more than [`LONG`] bytes comes in pieces of any length.
    step: usize,
    calls: u32,
    /// How many connections were opened.
    opened: &'a Cell<usize>,
    /// Of each connection what it gives, how many requests were sent, which text comes, and how much of it was received.
    which: [usize; WIRES],
    asked: [usize; WIRES],
    text: [usize; WIRES],
    at: [usize; WIRES],
}

impl<'a> Script<'a> {
    pub(crate) fn new(
        given: &'a [Vec<Vec<u8>>],
        step: usize,
        calls: u32,
        opened: &'a Cell<usize>,
    ) -> Script<'a> {
        Script {
            given,
            step,
            calls,
            opened,
            which: [0; WIRES],
            asked: [0; WIRES],
            text: [0; WIRES],
            at: [0; WIRES],
        }
    }

    /// Whether this call goes well.
    fn goes_well(&mut self) -> bool {
        if self.calls == 0 {
            return false;
        }
        self.calls -= 1;
        true
    }
}

impl Wires for Script<'_> {
    ghost heard = { λ _ _ _. ⊥ };

    fn open(&mut self, wire: usize) -> bool {
        if wire >= WIRES || !self.goes_well() {
            return false;
        }
        let place = self.opened.get();
        self.opened.set(place.saturating_add(1));
        self.which[wire] = place;
        self.asked[wire] = 0;
        self.text[wire] = 0;
        self.at[wire] = 0;
        place < self.given.len()
    }

    fn send(&mut self, wire: usize, bytes: &[u8]) -> Transfer {
        if wire >= WIRES || !self.goes_well() {
            return Transfer::Silent;
        }
        self.asked[wire] = self.asked[wire].saturating_add(requests_in(bytes));
        Transfer::Moved(bytes.len())
    }

    fn receive(&mut self, wire: usize, piece: &mut [u8]) -> Transfer {
        if wire >= WIRES || !self.goes_well() {
            return Transfer::Silent;
        }
        let place = self.which[wire];
        let number = self.text[wire];
        let Some(text) = text_at(self.given, place, number) else {
            return Transfer::Closed;
        };
        if number >= self.asked[wire] {
            return Transfer::Silent;
        }
        let at = self.at[wire].min(text.len());
        let rest = &text[at..];
        let step = if text.len() > LONG {
            rest.len()
        } else {
            self.step
        };
        let count = rest.len().min(piece.len()).min(step);
        if count == 0 {
            return Transfer::Closed;
        }
        let front = &mut piece[..count];
        front.copy_from_slice(&rest[..count]);
        if count == rest.len() {
            self.text[wire] = number.saturating_add(1);
            self.at[wire] = 0;
        } else {
            self.at[wire] = at + count;
        }
        Transfer::Moved(count)
    }
}

/// The text with this number that comes on a connection.
fn text_at(given: &[Vec<Vec<u8>>], place: usize, number: usize) -> Option<&[u8]> {
    let texts = given.get(place)?;
    let text = texts.get(number)?;
    Some(text.as_slice())
}

/// How many requests these are: each has just one letter G in upper case.
fn requests_in(bytes: &[u8]) -> usize {
    let mut count: usize = 0;
    for byte in bytes {
        if *byte == b'G' {
            count = count.saturating_add(1);
        }
    }
    count
}
