//! Bringing parts of a file ahead.

ghost use Rattle.std.specs.Prelude.{◌<◌, ◌≤◌};
ghost use Rattle.http_ranges.specs.declared.limits.TheConstants.{DEPTH_LIMIT, WIRES};

use crate::address::Address;
use crate::byte_range::ByteRange;
use crate::http_file::HttpFile;
use crate::kept::Kept;
use crate::limits::{DEPTH_LIMIT, REQUESTS_LIMIT, TRIES, WIRES};
use crate::not_given::NotGiven;
use crate::request::range_request;
use crate::span::{Span, joined};
use crate::wires::Wires;
use node_pack::Place;
use std::alloc::{AllocError, Global};

/// How many bytes a request has at most, beside the name of the server and the path.
const REQUEST_MORE: usize = 128;

impl<W: Wires + Drop> HttpFile<'_, W> {
    /// Brings the bytes at these places, as far as they aren't kept and the budget allows. What comes is kept, until there is a
    /// refusal.
    pub(crate) fn bring(&mut self, places: &[Place]) -> Result<(), NotGiven> {
        let size = self.find_size()?;
        let wanted = wanted(self.alloc, places, &self.kept, size)?;
        let mut spans = joined(self.alloc, &wanted)?;
        cut(&mut spans, self.budget);
        for _ in 0..TRIES {
            if spans.is_empty() {
                return Ok(());
            }
            spans = self.bring_once(&spans)?;
        }
        Ok(())
    }

    /// Asks for each of these spans once, and gives those whose connections were closed before they came.
    fn bring_once(&mut self, spans: &[Span]) -> Result<Vec<Span>, NotGiven> {
        let mut missed = Vec::new(self.alloc);
        let mut rest = spans;
        while !rest.is_empty() {
            let depth = self.depth();
            let count = rest.len().min(WIRES * depth);
            let (wave, later) = rest.split_at(count);
            let share = count.div_ceil(WIRES);
            self.ask_wave(wave, share)?;
            self.receive_wave(wave, share, &mut missed)?;
            rest = later;
        }
        Ok(missed)
    }

    /// How many requests are sent over a connection before an answer is read: so many that the buffers of the sockets take them.
    /// One, where the server closes connections after their answers.
    fn depth(&self) -> usize
        ensures some { 0 < result }
        ensures few { result ≤ DEPTH_LIMIT }
    {
        if self.is_persistent {
            depth_for(&self.address)
        } else {
            1
        }
    }

    /// Sends the requests for these spans, so many over each connection.
    fn ask_wave(&mut self, wave: &[Span], share: usize) -> Result<(), NotGiven> {
        for wire in 0..WIRES {
            let requests = requests(self.alloc, &self.address, share_of(wave, wire, share))?;
            // A connection that takes no requests gives no answers.
            if !requests.is_empty() && self.connections.send(wire, &requests).is_err() {
                self.connections.shut(wire);
            }
        }
        Ok(())
    }

    /// Receives the answers to these requests, and lists those that don't come.
    fn receive_wave(
        &mut self,
        wave: &[Span],
        share: usize,
        missed: &mut Vec<Span>,
    ) -> Result<(), NotGiven> {
        for wire in 0..WIRES {
            self.receive_share(wire, share_of(wave, wire, share), missed)?;
        }
        Ok(())
    }

    /// Receives the answers that come on one connection.
    fn receive_share(
        &mut self,
        wire: usize,
        share: &[Span],
        missed: &mut Vec<Span>,
    ) -> Result<(), NotGiven>
        requires { wire < WIRES }
    {
        for span in share {
            if self.connections.is_open(wire) {
                self.receive_span(wire, *span, missed)?;
            } else {
                missed.push(*span)?;
            }
        }
        self.connections.finish(wire);
        Ok(())
    }

    /// Receives the bytes of one span, and keeps them. Where the connection is closed before, the span is listed.
    fn receive_span(
        &mut self,
        wire: usize,
        span: Span,
        missed: &mut Vec<Span>,
    ) -> Result<(), NotGiven>
        requires { wire < WIRES }
    {
        let Some(asked) = range_of(span) else {
            return Ok(());
        };
        let from = self.kept.bytes.len();
        match self
            .connections
            .receive(wire, asked, self.size, &mut self.kept.bytes)
        {
            Ok(given) => {
                self.kept.note(span, from)?;
                self.budget = self.budget.saturating_sub(given.len);
                self.note(given);
                Ok(())
            }
            Err(NotGiven::Unanswered | NotGiven::ClosedEarly) => {
                self.connections.shut(wire);
                missed.push(span)?;
                Ok(())
            }
            Err(why) => Err(why),
        }
    }
}

/// How many requests for ranges of this file are sent over a connection before an answer is read.
fn depth_for(address: &Address<'_>) -> usize
    ensures some { 0 < result }
    ensures few { result ≤ DEPTH_LIMIT }
{
    let len = address
        .host
        .len()
        .saturating_add(address.path.len())
        .saturating_add(REQUEST_MORE);
    (REQUESTS_LIMIT / len).min(DEPTH_LIMIT).max(1)
}

/// The spans that a connection is asked for, if each is asked for so many.
fn share_of(wave: &[Span], wire: usize, share: usize) -> &[Span] {
    let from = wire.saturating_mul(share).min(wave.len());
    let to = from.saturating_add(share).min(wave.len());
    &wave[from..to]
}

/// The requests for these spans, one after the other.
fn requests(alloc: Global, address: &Address<'_>, spans: &[Span]) -> Result<Vec<u8>, AllocError> {
    let mut requests = Vec::new(alloc);
    for span in spans {
        if let Some(range) = range_of(*span) {
            let request = range_request(alloc, address, range)?;
            requests.extend_from_slice(&request)?;
        }
    }
    Ok(requests)
}

/// The range of a span; `None` where it has no bytes.
fn range_of(span: Span) -> Option<ByteRange> {
    if span.start >= span.end {
        return None;
    }
    Some(ByteRange {
        first: span.start,
        last: span.end - 1,
    })
}

/// The spans of the places that the file has and that aren't kept, by rising start.
fn wanted(
    alloc: Global,
    places: &[Place],
    kept: &Kept,
    size: u64,
) -> Result<Vec<Span>, AllocError> {
    let mut spans = Vec::new(alloc);
    for place in places {
        if let Some(span) = span_of(*place, size)
            && kept.find(span.start, place.len as usize).is_none()
        {
            spans.push(span)?;
        }
    }
    spans.sort_unstable_by_key(|span| span.start);
    Ok(spans)
}

/// The span of a place; `None` where the file hasn't all of it, or it has no bytes.
fn span_of(place: Place, size: u64) -> Option<Span> {
    let start = place.at;
    let end = start.checked_add(u64::from(place.len))?;
    if place.len == 0 || end > size {
        return None;
    }
    Some(Span { start, end })
}

/// Leaves out the spans after those that have so many bytes together.
fn cut(spans: &mut Vec<Span>, most: u64) {
    let mut left = most;
    let mut count: usize = 0;
    for span in spans.iter() {
        let len = span.end.saturating_sub(span.start);
        if len > left {
            break;
        }
        left -= len;
        count = count.saturating_add(1);
    }
    spans.truncate(count);
}
