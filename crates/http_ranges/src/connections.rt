//! The connections to a server, and what is awaited of them.

ghost use Rattle.std.specs.Prelude.{◌<◌, IfOk, OnOk};
ghost use Rattle.http_ranges.specs.internal.Passing.{HasBody, IsGiven, TakesBody, TakesHead, TakesResponse};
ghost use Rattle.http_ranges.specs.declared.limits.TheConstants.{WIRES};

use crate::byte_range::ByteRange;
use crate::incoming::Incoming;
use crate::judging::Given;
use crate::limits::WIRES;
use crate::not_given::NotGiven;
use crate::receiving::{take_body, take_head};
use crate::wires::{Transfer, Wires};
use std::alloc::Global;

/// The connections to a server. Of one at a time responses are received: what came on it after the last one is forgotten
/// with it.
#[derive(Drop)]
pub(crate) struct Connections<W: Wires + Drop> {
    wires: W,
    open: [bool; WIRES],
    incoming: Incoming,
}

impl<W: Wires + Drop> Connections<W> {
    /// None is open yet. It takes no memory.
    pub(crate) fn new(alloc: Global, wires: W) -> Connections<W> {
        Connections {
            wires,
            open: [false; WIRES],
            incoming: Incoming::new(alloc),
        }
    }

    /// Whether the connection is open, as far as is known.
    pub(crate) fn is_open(&self, wire: usize) -> bool
        requires { wire < WIRES }
    {
        self.open[wire]
    }

    /// Sends requests over a connection, which is opened where it isn't open.
    ///
    /// Refused with `Unreached`, `Silent` or `Unanswered`.
    pub(crate) fn send(&mut self, wire: usize, requests: &[u8]) -> Result<(), NotGiven>
        requires { wire < WIRES }
    {
        if !self.open[wire] {
            if !self.wires.open(wire) {
                return Err(NotGiven::Unreached);
            }
            self.open[wire] = true;
        }
        send_whole(&mut self.wires, wire, requests)
    }

    /// Receives the response that comes next on a connection, and appends its body to other bytes.
    pub(crate) fn receive(
        &mut self,
        wire: usize,
        asked: ByteRange,
        size: Option<u64>,
        into: &mut Vec<u8>,
    ) -> Result<Given, NotGiven>
        requires { wire < WIRES }
        ensures { IfOk result
            (TakesResponse asked size (W.heard self.old.wires wire) self.old.incoming
            (W.heard self.new.wires wire) self.new.incoming into.old.items into.new.items) }
    {
        let given = self.receive_head(wire, asked, size)?;
        self.receive_body(wire, given, into)?;
        Ok(given)
    }

    /// Receives the head of the response that comes next on a connection.
    fn receive_head(
        &mut self,
        wire: usize,
        asked: ByteRange,
        size: Option<u64>,
    ) -> Result<Given, NotGiven>
        requires { wire < WIRES }
        ensures { IfOk result
            (TakesHead asked size (W.heard self.old.wires wire) self.old.incoming
            (W.heard self.new.wires wire) self.new.incoming) }
    {
        take_head(&mut self.wires, wire, &mut self.incoming, asked, size)
    }

    /// Receives its body, and appends it to other bytes.
    fn receive_body(
        &mut self,
        wire: usize,
        given: Given,
        into: &mut Vec<u8>,
    ) -> Result<(), NotGiven>
        requires { wire < WIRES }
        ensures { OnOk result
            (TakesBody given.len (W.heard self.old.wires wire) self.old.incoming
            (W.heard self.new.wires wire) self.new.incoming into.old.items into.new.items) }
    {
        take_body(&mut self.wires, wire, &mut self.incoming, given.len, into)?;
        if given.closes {
            self.open[wire] = false;
        }
        Ok(())
    }

    /// Nothing more is awaited of a connection. One that gives bytes unasked isn't used again.
    pub(crate) fn finish(&mut self, wire: usize)
        requires { wire < WIRES }
    {
        if !self.incoming.rest().is_empty() {
            self.shut(wire);
        }
    }

    /// The connection isn't used again: it is opened anew.
    pub(crate) fn shut(&mut self, wire: usize)
        requires { wire < WIRES }
    {
        self.open[wire] = false;
        self.incoming.clear();
    }

    /// None of the connections is used again.
    pub(crate) fn shut_all(&mut self) {
        self.open = [false; WIRES];
        self.incoming.clear();
    }

    /// Sends one request over the first connection, and receives its response. Where that one was kept from before, and is
    /// closed before any byte of the response, the request is sent once more, over a new one.
    pub(crate) fn ask(
        &mut self,
        request: &[u8],
        asked: ByteRange,
        size: Option<u64>,
        into: &mut Vec<u8>,
    ) -> Result<Given, NotGiven>
        ensures { IfOk result (HasBody asked size into.old.items into.new.items) }
    {
        let given = self.ask_head(request, asked, size)?;
        match self.receive_body(0, given, into) {
            Ok(()) => {
                self.finish(0);
                Ok(given)
            }
            Err(why) => {
                self.shut(0);
                Err(why)
            }
        }
    }

    /// The same, up to the head of the response.
    fn ask_head(
        &mut self,
        request: &[u8],
        asked: ByteRange,
        size: Option<u64>,
    ) -> Result<Given, NotGiven>
        ensures { IfOk result (IsGiven asked size) }
    {
        let is_kept = self.open[0];
        match self.try_ask(request, asked, size) {
            Err(NotGiven::Unanswered) if is_kept => self.try_ask(request, asked, size),
            outcome => outcome,
        }
    }

    /// The same, once.
    fn try_ask(
        &mut self,
        request: &[u8],
        asked: ByteRange,
        size: Option<u64>,
    ) -> Result<Given, NotGiven>
        ensures { IfOk result (IsGiven asked size) }
    {
        match self.send_and_receive(request, asked, size) {
            Ok(given) => Ok(given),
            Err(why) => {
                self.shut(0);
                Err(why)
            }
        }
    }

    fn send_and_receive(
        &mut self,
        request: &[u8],
        asked: ByteRange,
        size: Option<u64>,
    ) -> Result<Given, NotGiven>
        ensures { IfOk result (IsGiven asked size) }
    {
        self.send(0, request)?;
        self.receive_head(0, asked, size)
    }
}

/// Sends the bytes, in as few calls as the connection takes.
fn send_whole<W: Wires>(wires: &mut W, wire: usize, bytes: &[u8]) -> Result<(), NotGiven> {
    let mut done = 0;
    while done < bytes.len() {
        match wires.send(wire, &bytes[done..]) {
            Transfer::Moved(0) => return Err(NotGiven::Silent),
            Transfer::Moved(count) => done += count,
            Transfer::Closed => return Err(NotGiven::Unanswered),
            Transfer::Silent => return Err(NotGiven::Silent),
        }
    }
    Ok(())
}
