//! The connections to a server of files, over TCP.

use crate::tcp_dial::TcpDial;
use http_ranges::{Transfer, Wires};
use mirror_reply::{Dial, Receipt};
use std::cell::Cell;

/// The connections to a server of files at a place `HOST:PORT`. What the system said of the last call that failed is left where
/// the caller sees it.
#[derive(Drop)]
pub struct TcpWires<'a> {
    rt: &'a HostRuntime,
    place: &'a str,
    dials: Vec<TcpDial<'a>>,
    error: &'a Cell<Option<i32>>,
}

impl<'a> TcpWires<'a> {
    /// Nothing is opened yet.
    pub fn new(rt: &'a HostRuntime, place: &'a str, error: &'a Cell<Option<i32>>) -> TcpWires<'a> {
        TcpWires {
            rt,
            place,
            dials: Vec::new(rt.alloc()),
            error,
        }
    }

    /// Whether a call failed because the connection was closed or broken, and not because nothing moved in time.
    fn was_closed(&self, error: Option<i32>) -> bool {
        self.error.set(error);
        match error {
            Some(code) => code != libc::EAGAIN && code != libc::ETIMEDOUT,
            None => false,
        }
    }
}

impl Wires for TcpWires<'_> {
    /// A server may give anything.
    ghost heard = { λ _ _ _. ⊥ };

    fn open(&mut self, wire: usize) -> bool {
        for _ in self.dials.len()..=wire {
            let dial = TcpDial::of_files(self.rt, self.place);
            if self.dials.push(dial).is_err() {
                return false;
            }
        }
        let Some(dial) = self.dials.get_mut(wire) else {
            return false;
        };
        let is_open = dial.open();
        if !is_open {
            self.error.set(dial.error());
        }
        is_open
    }

    fn send(&mut self, wire: usize, bytes: &[u8]) -> Transfer {
        let Some(dial) = self.dials.get_mut(wire) else {
            return Transfer::Closed;
        };
        dial.begin();
        let sent = dial.send(bytes);
        let error = dial.error();
        match sent {
            Some(count) if count <= bytes.len() => Transfer::Moved(count),
            _ if self.was_closed(error) => Transfer::Closed,
            _ => Transfer::Silent,
        }
    }

    fn receive(&mut self, wire: usize, piece: &mut [u8]) -> Transfer {
        let Some(dial) = self.dials.get_mut(wire) else {
            return Transfer::Closed;
        };
        let received = dial.receive(piece);
        let error = dial.error();
        match received {
            Receipt::Got(count) if count > 0 && count <= piece.len() => Transfer::Moved(count),
            Receipt::Got(_) | Receipt::Ended => Transfer::Closed,
            Receipt::Broken if self.was_closed(error) => Transfer::Closed,
            Receipt::Broken => Transfer::Silent,
        }
    }
}
