//! One connection.

ghost use Rattle.std.specs.Prelude.{◌≡◌, ◌<◌, ◌≤◌, ℕ, IfOk, List, OnErr, [], drop, length};
ghost use Rattle.osm_keys.specs.Publications.{Publication};
ghost use Rattle.osm_index.specs.Snapshots.{HoldsPublication};
ghost use Rattle.osm_gate.specs.Connections.{Responds, RespondsOn, RespondsWithin, Rest, requests_next, open_rest};
ghost use Rattle.osm_gate.specs.Pieces.{CompletesOne, IsWanted};
ghost use Rattle.osm_gate.specs.Terms.{terms_of};
ghost use Rattle.osm_gate.specs.internal.Kept.{IsKept, ends_in_break};

use crate::chunks::Chunks;
use crate::mirror::Mirror;
use crate::requests::respond_as;
use crate::response_bytes::ResponseBytes;
use crate::route::{Route, routes};
use matchit::{InsertError, Router};
use osm_index::Snapshot;
use std::alloc::{AllocError, Global};
use std::marker::Model;

/// One connection, which is fed its bytes in pieces and gives the responses to its requests. Contracts see it as
/// whether it is closed, and the bytes after the last complete request.
///
/// How the bytes are cut into pieces changes no response. All pieces together are looked at in time that is
/// linear in their bytes: no head is scanned anew because a piece of it has come. The gate keeps no more than a
/// head and a body.
#[derive(Drop)]
pub struct Gate {
    alloc: Global,
    router: Router<Route>,
    rest: Vec<u8>,
    /// The rest is no complete request as long as it has fewer bytes; 0 where its head isn't complete.
    needed: usize,
    is_closed: bool,
}

impl Model for Gate {
    ghost Value = { Rest };

    ghost view = { λ gate. record { is_closed = gate.is_closed; bytes = gate.rest.items } };

    ghost invariant = { λ gate. IsKept gate.is_closed gate.needed gate.rest.items gate.router };
}

impl Gate {
    /// A new connection. Refused only where memory runs out.
    pub fn new(alloc: Global) -> Result<Gate, AllocError>
        // It isn't closed, and has no bytes yet.
        ensures { IfOk result (λ gate. gate ≡ open_rest []) }
    {
        match routes(alloc) {
            Ok(router) => Ok(Gate {
                alloc,
                router,
                rest: Vec::new(alloc),
                needed: 0,
                is_closed: false,
            }),
            Err(InsertError::OutOfMemory) => Err(AllocError),
            Err(_) => unreachable!("the routes don't conflict"),
        }
    }

    /// Whether the connection has ended: no further bytes have a response. It takes no memory.
    pub fn closed(&self) -> bool
        ensures { result ≡ self.now.is_closed }
    {
        self.is_closed
    }

    /// The bytes after the last complete request: those of a request that isn't complete yet. It takes no memory.
    pub fn left(&self) -> &[u8]
        ensures { result.now ≡ self.now.bytes }
    {
        &self.rest
    }

    /// How many bytes the next piece may have so that it completes one request at most: those of a body that are still
    /// missing; one where an empty line may go on after the bytes of a head; and 0 else, where a piece may have any number
    /// of bytes, if it ends after the first empty line in it. A piece that has more is taken all the same. It takes no
    /// memory.
    pub fn wanted(&self) -> usize
        // A piece of fewer bytes completes nothing,
        ensures fewer { (piece : List ℕ) → length piece < result
            → (requests_next self.now piece).complete ≡ [] }
        // and one that is wanted one request at most.
        ensures one { (piece : List ℕ) → IsWanted result piece → CompletesOne self.now piece }
    {
        if self.needed > 0 {
            return self.needed - self.rest.len();
        }
        if ends_in_break(&self.rest) { 1 } else { 0 }
    }

    /// Takes the next piece, and gives the responses to the requests that it completes, over the snapshot. None
    /// once the gate is closed. Refused only where memory runs out.
    pub fn feed(&mut self, piece: &[u8], snapshot: &Snapshot) -> Result<Vec<u8>, AllocError>
        // What is given responds to the requests of what was left and of this piece,
        ensures responses { (p : Publication) → HoldsPublication snapshot.now p
            → IfOk result (λ responses.
            Responds p (requests_next self.old piece.now).complete responses.items) }
        // and what is left of both is left.
        ensures rest { IfOk result (λ responses.
            self.new ≡ (requests_next self.old piece.now).rest) }
        // Out of memory the gate is as before: no part of the piece was taken.
        ensures unchanged { OnErr result (self.new ≡ self.old) }
    {
        let mut mirror = snapshot;
        self.feed_as(piece, &mut mirror, None)
    }

    /// Takes the next piece, as [`Gate::feed`] does, where each query has a budget, or none: one that passes it is
    /// answered with 503 `too much work`, and the connection goes on. What is counted says [`ql_eval::evaluate_within`].
    /// An answer or a proof of more than 64 MiB is a chunk of its own, which isn't copied. Refused only where memory runs
    /// out.
    pub fn feed_within(
        &mut self,
        piece: &[u8],
        snapshot: &Snapshot,
        most: Option<u64>,
    ) -> Result<Chunks, AllocError>
        // What is given responds to the requests of what was left and of this piece,
        ensures responses { (p : Publication) → HoldsPublication snapshot.now p
            → IfOk result (λ responses.
            RespondsWithin most p (requests_next self.old piece.now).complete responses) }
        // and what is left of both is left.
        ensures rest { IfOk result (λ responses.
            self.new ≡ (requests_next self.old piece.now).rest) }
        // Out of memory the gate is as before: no part of the piece was taken.
        ensures unchanged { OnErr result (self.new ≡ self.old) }
    {
        let mut mirror = snapshot;
        self.feed_as(piece, &mut mirror, most)
    }

    /// Takes the next piece, as [`Gate::feed_within`] does, over any mirror, and gives the responses in this form: as
    /// chunks, or in one vector. A query that reads may be answered with 500 `device` where the mirror's nodes are read from
    /// one, and the connection goes on. Refused only where memory runs out.
    pub fn feed_as<M: Mirror, R: ResponseBytes>(
        &mut self,
        piece: &[u8],
        mirror: &mut M,
        most: Option<u64>,
    ) -> Result<R, AllocError>
        // What is given responds to the requests of what was left and of this piece,
        ensures responses { (p : Publication) → M.holds mirror.old p
            → IfOk result (λ responses. RespondsOn (terms_of most M.may_fail) p
            (requests_next self.old piece.now).complete (R.bytes responses)) }
        // and what is left of both is left.
        ensures rest { IfOk result (λ responses.
            self.new ≡ (requests_next self.old piece.now).rest) }
        // Out of memory the gate is as before: no part of the piece was taken.
        ensures unchanged { OnErr result (self.new ≡ self.old) }
        // The mirror is the same.
        ensures same { mirror.new ≡ mirror.old }
    {
        if self.is_closed {
            return Ok(R::none(self.alloc));
        }
        let before = self.rest.len();
        self.rest.extend_from_slice(piece)?;
        if self.rest.len() < self.needed {
            return Ok(R::none(self.alloc));
        }
        // Without a complete head all of the rest has been scanned; with one there is no need to scan it again.
        let scanned = if self.needed == 0 { before } else { 0 };
        let rest = self.rest.as_slice();
        let (responses, left) = match respond_as(
            self.alloc,
            &self.router,
            mirror,
            rest,
            scanned,
            most,
        ) {
            Ok(both) => both,
            Err(error) => {
                self.rest.truncate(before);
                return Err(error);
            }
        };
        match left {
            Some(open) => {
                drop_front(&mut self.rest, open.at);
                self.needed = open.needed;
            }
            None => {
                self.rest.clear();
                self.needed = 0;
                self.is_closed = true;
            }
        }
        Ok(responses)
    }
}

/// Takes so many bytes off the front.
fn drop_front(bytes: &mut Vec<u8>, count: usize)
    requires { count ≤ length bytes.old.items }
    ensures { bytes.new.items ≡ drop count bytes.old.items }
{
    let left = bytes.len() - count;
    bytes.as_mut_slice().rotate_left(count);
    bytes.truncate(left);
}

/// Whether the bytes end in CR or LF.
fn ends_in_break(bytes: &[u8]) -> bool
    ensures { result ≡ ends_in_break bytes.now }
{
    let Some(last) = bytes.last() else {
        return false;
    };
    *last == b'\r' || *last == b'\n'
}
