//! Receiving a response.

ghost use Rattle.std.specs.Prelude.{◌≡◌, ◌<◌, ◌≤◌, [], ◌++◌, IfOk, IfSome, OnOk, drop, length, take};
ghost use Rattle.http_messages.specs.HeadEnds.{head_length};
ghost use Rattle.http_ranges.specs.internal.Passing.{Passes, TakesBody, TakesHead, TakesNext};
ghost use Rattle.http_ranges.specs.declared.limits.TheConstants.{HEAD_LIMIT};

use crate::byte_range::ByteRange;
use crate::incoming::Incoming;
use crate::judging::{Given, Judgement, judge_head};
use crate::limits::{HEAD_LIMIT, INTERIM_LIMIT};
use crate::not_given::NotGiven;
use crate::wires::Wires;
use http_messages::head_end;
use std::alloc::AllocError;

/// Takes the head of the next response, if it has the range that was asked for. Up to four interim responses before it are
/// passed over.
///
/// Refused with `Unanswered` where the connection is closed before any byte of it, with what the response is worth instead,
/// with `HeadTooLong`, `ClosedEarly` or `Silent`, and where memory is refused.
pub(crate) fn take_head<W: Wires>(
    wires: &mut W,
    wire: usize,
    incoming: &mut Incoming,
    asked: ByteRange,
    size: Option<u64>,
) -> Result<Given, NotGiven>
    ensures { IfOk result
        (TakesHead asked size (W.heard wires.old wire) incoming.old
        (W.heard wires.new wire) incoming.new) }
{
    await_first(wires, wire, incoming)?;
    for _ in 0..=INTERIM_LIMIT {
        match next_head(wires, wire, incoming, asked, size)? {
            Judgement::Interim => {}
            Judgement::Given(given) => return Ok(given),
            Judgement::Refused(why) => return Err(why),
        }
    }
    Err(NotGiven::Malformed)
}

/// Takes the head of the next response, and says what the response is worth.
fn next_head<W: Wires>(
    wires: &mut W,
    wire: usize,
    incoming: &mut Incoming,
    asked: ByteRange,
    size: Option<u64>,
) -> Result<Judgement, NotGiven>
    ensures { IfOk result
        (TakesNext asked size (W.heard wires.old wire) incoming.old
        (W.heard wires.new wire) incoming.new) }
{
    let len = await_head(wires, wire, incoming)?;
    let (head, _) = incoming.rest().split_at(len);
    let judgement = judge_head(head, asked, size);
    incoming.skip(len);
    Ok(judgement)
}

/// Waits for the first byte of a response.
fn await_first<W: Wires>(
    wires: &mut W,
    wire: usize,
    incoming: &mut Incoming,
) -> Result<(), NotGiven>
    ensures { OnOk result
        (Passes [] (W.heard wires.old wire) incoming.old (W.heard wires.new wire) incoming.new) }
{
    if !incoming.rest().is_empty() {
        return Ok(());
    }
    match incoming.pull(wires, wire) {
        Err(NotGiven::ClosedEarly) => Err(NotGiven::Unanswered),
        outcome => outcome,
    }
}

/// Waits for the end of a head, and gives its length. What has come of it is looked through again after each piece: a head
/// has 8,192 bytes at most.
fn await_head<W: Wires>(
    wires: &mut W,
    wire: usize,
    incoming: &mut Incoming,
) -> Result<usize, NotGiven>
    ensures within { IfOk result (λ len. len ≤ length incoming.new) }
    ensures passes { OnOk result
        (Passes [] (W.heard wires.old wire) incoming.old (W.heard wires.new wire) incoming.new) }
{
    while incoming.rest().len() < HEAD_LIMIT {
        if let Some(len) = end_of_head(incoming.rest()) {
            return Ok(len);
        }
        incoming.pull(wires, wire)?;
    }
    match end_of_head(incoming.rest()) {
        Some(len) => Ok(len),
        None => Err(NotGiven::HeadTooLong),
    }
}

/// The length of the head at the front of these bytes, if it ends within the limit.
fn end_of_head(bytes: &[u8]) -> Option<usize>
    ensures end { result ≡ head_length (take HEAD_LIMIT bytes.now) }
    ensures within { IfSome result (λ len. len ≤ length bytes.now) }
{
    head_end(window(bytes), 0)
}

/// The first bytes, within which a head must end.
fn window(bytes: &[u8]) -> &[u8]
    ensures { result.now ≡ take HEAD_LIMIT bytes.now }
{
    if bytes.len() <= HEAD_LIMIT {
        bytes
    } else {
        bytes.split_at(HEAD_LIMIT).0
    }
}

/// Takes so many bytes of the body, and appends them to others.
pub(crate) fn take_body<W: Wires>(
    wires: &mut W,
    wire: usize,
    incoming: &mut Incoming,
    len: u64,
    into: &mut Vec<u8>,
) -> Result<(), NotGiven>
    ensures { OnOk result
        (TakesBody len (W.heard wires.old wire) incoming.old
        (W.heard wires.new wire) incoming.new into.old.items into.new.items) }
{
    let mut left = len;
    while left > 0 {
        await_some(wires, wire, incoming)?;
        left -= take_some(incoming, left, into)?;
    }
    Ok(())
}

/// Waits for bytes where there are none.
fn await_some<W: Wires>(wires: &mut W, wire: usize, incoming: &mut Incoming) -> Result<(), NotGiven>
    ensures some { OnOk result (0 < length incoming.new) }
    ensures passes { OnOk result
        (Passes [] (W.heard wires.old wire) incoming.old (W.heard wires.new wire) incoming.new) }
{
    if incoming.rest().is_empty() {
        incoming.pull(wires, wire)?;
    }
    Ok(())
}

/// Takes what is there of so many bytes, appends it to others, and says how many it is.
fn take_some(incoming: &mut Incoming, most: u64, into: &mut Vec<u8>) -> Result<u64, AllocError>
    requires some { 0 < length incoming.old }
    requires wanted { 0 < most }
    ensures count { IfOk result
        (λ count. (0 < count) × (count ≤ most) × (count ≤ length incoming.old)) }
    ensures taken { IfOk result (λ count. incoming.new ≡ drop count incoming.old) }
    ensures appended { IfOk result
        (λ count. into.new.items ≡ into.old.items ++ take count incoming.old) }
{
    let rest = incoming.rest();
    let count = most.min(rest.len() as u64) as usize;
    into.extend_from_slice(&rest[..count])?;
    incoming.skip(count);
    Ok(count as u64)
}
