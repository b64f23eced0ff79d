//! Connections that share a mirror.

ghost use Rattle.std.specs.Bool.{OnFalse};
ghost use Rattle.std.specs.FinMap.{empty, get, len};
ghost use Rattle.std.specs.Prelude.{◌≡◌, ◌<◌, ◌≤◌, ◌↔◌, ℕ, IfErr, IfOk, IsSome, IsTrue, List, None, OnErr, OnOk, [], is_some, length};
ghost use Rattle.osm_gate.specs.Connections.{RespondsOn, requests_next, open_rest};
ghost use Rattle.osm_gate.specs.Pieces.{CompletesOne, IsWanted};
ghost use Rattle.osm_gate.specs.Terms.{terms_of};
ghost use Rattle.osm_keys.specs.Publications.{Publication};
ghost use Rattle.osm_index.specs.Snapshots.{HoldsPublication, IsAsBefore};
ghost use Rattle.osm_desk.specs.AnnouncedRoots.{RefusesAnnounced, root_digits};
ghost use Rattle.osm_desk.specs.Contents.{desk_over, fresh_contents};
ghost use Rattle.osm_desk.specs.Events.{IsTurn, answer_of};
ghost use Rattle.osm_desk.specs.Made.{IsMade, RefusesChanges};
ghost use Rattle.osm_desk.specs.Stepping.{HasStepped, IsRefusal, LeavesRest, texts_of};
ghost use Rattle.osm_desk.specs.OneConnection.{IsFree, RefusesOpening, rest_of, with_rest, without};
ghost use Rattle.osm_desk.specs.internal.Serving.{HasArrived, RefusesPiece};

use crate::desk_fault::DeskFault;
use crate::event::Event;
use crate::limits::CONNECTION_LIMIT;
use opl_codec::Change;
use osm_gate::{Chunks, Gate, Mirror, ResponseBytes};
use osm_index::{AnnouncedFault, ApplyFault, Snapshot};
use std::alloc::{AllocError, Global};
use std::collections::BTreeMap;
use std::marker::Model;

/// The connections that are open over one mirror, of either edition. Contracts see it as that mirror, and what is left of
/// each connection. Over a [`Snapshot`] changes can be published.
#[derive(Drop)]
pub struct Desk<M> {
    alloc: Global,
    mirror: M,
    gates: BTreeMap<u32, Gate>,
}

impl<M> Model for Desk<M> {
    ghost use Rattle.std.specs.Coded.{codes};
    ghost use Rattle.std.specs.FinMap.{code, from_entries};
    ghost use Rattle.osm_desk.specs.Contents.{Contents};

    ghost Value = { Contents M };

    ghost coded = { Prim.hlevel (codes, code, M.code) };

    ghost view = { λ d. record { mirror = d.mirror; connections = from_entries d.gates.entries } };
}

impl<M: Mirror> Desk<M> {
    /// A desk over the mirror, without connections. It takes no memory.
    pub fn new(alloc: Global, mirror: M) -> Desk<M>
        ensures { result ≡ fresh_contents mirror }
    {
        Desk {
            alloc,
            mirror,
            gates: BTreeMap::new(alloc),
        }
    }

    /// The mirror that is in force.
    pub fn mirror(&self) -> &M
        ensures { result.now ≡ self.now.mirror }
    {
        &self.mirror
    }

    /// Whether the connection is open. It takes no memory.
    pub fn is_open(&self, number: u32) -> bool
        ensures open { IsTrue result ↔ IsSome (get self.now.connections number) }
        ensures free { OnFalse result (get self.now.connections number ≡ None) }
    {
        self.gates.contains_key(&number)
    }

    /// Whether no connection is open. It takes no memory.
    pub fn is_empty(&self) -> bool
        ensures { IsTrue result ↔ (self.now.connections ≡ empty) }
    {
        self.gates.len() == 0
    }

    /// Whether 64 connections are open, so that no further one is opened. It takes no memory.
    pub fn is_full(&self) -> bool
        ensures full { IsTrue result ↔ (CONNECTION_LIMIT ≤ len self.now.connections) }
        ensures room { OnFalse result (len self.now.connections < CONNECTION_LIMIT) }
    {
        self.gates.len() >= CONNECTION_LIMIT
    }

    /// Whether the connection takes nothing more: it has ended by what it sent, or isn't open. It takes no memory.
    pub fn is_closed(&self, number: u32) -> bool
        ensures { result ≡ (rest_of self.now number).is_closed }
    {
        match self.gates.get(&number) {
            Some(gate) => gate.closed(),
            None => true,
        }
    }

    /// How many bytes the next piece of the connection may have so that it completes one request at most, as
    /// [`Gate::wanted`] tells: 0 where any number will do, if the piece ends after the first empty line in it. It takes no
    /// memory.
    pub fn wanted(&self, number: u32) -> usize
        // A piece of fewer bytes completes nothing,
        ensures fewer { (piece : List ℕ) → length piece < result
            → (requests_next (rest_of self.now number) piece).complete ≡ [] }
        // and one that is wanted one request at most.
        ensures one { (piece : List ℕ) → IsWanted result piece
            → CompletesOne (rest_of self.now number) piece }
    {
        match self.gates.get(&number) {
            Some(gate) => gate.wanted(),
            None => 0,
        }
    }

    /// Opens a connection, as the event `Open` does.
    ///
    /// # Errors
    ///
    /// `AlreadyOpen` (D1) where it is open, else `NoRoom` (D3) where 64 are, else `Memory` where an allocation was refused.
    /// After a refusal all is as before.
    pub fn open(&mut self, number: u32) -> Result<(), DeskFault>
        ensures opened { OnOk result (IsFree self.old number
            × (self.new ≡ with_rest self.old number (open_rest []))) }
        ensures refused { IfErr result (RefusesOpening self.old number) }
        ensures unchanged { OnErr result (self.new ≡ self.old) }
    {
        if self.is_open(number) {
            return Err(DeskFault::AlreadyOpen);
        }
        if self.is_full() {
            return Err(DeskFault::NoRoom);
        }
        let Ok(gate) = Gate::new(self.alloc) else {
            return Err(DeskFault::Memory);
        };
        let Ok(_) = self.gates.insert(number, gate) else {
            return Err(DeskFault::Memory);
        };
        Ok(())
    }

    /// Takes a piece of a connection, and gives the responses to the requests that it completes, over the mirror that
    /// is in force. A connection that isn't open takes nothing. A query that reads may be answered with 500 `device` where
    /// the mirror's nodes are read from one. Refused only where memory runs out, and then no part of the piece was taken.
    pub fn hear(&mut self, number: u32, piece: &[u8]) -> Result<Vec<u8>, AllocError>
        ensures responses { (p : Publication) → M.holds self.old.mirror p
            → IfOk result (λ text. RespondsOn (terms_of None M.may_fail) p
            (requests_next (rest_of self.old number) piece.now).complete text.items) }
        ensures rest { OnOk result (rest_of self.new number
            ≡ (requests_next (rest_of self.old number) piece.now).rest) }
        ensures open { IsSome (get self.old.connections number)
            → OnOk result (self.new ≡ with_rest self.old number
            (requests_next (rest_of self.old number) piece.now).rest) }
        ensures others { without self.new number ≡ without self.old number }
        ensures unchanged { OnErr result (self.new ≡ self.old) }
    {
        self.hear_as(number, piece, None)
    }

    /// Takes a piece of a connection, as [`Desk::hear`] does, where each query has a budget, or none: one that passes it
    /// is answered with 503 `too much work`, as by [`Gate::feed_within`]. An answer or a proof of more than 64 MiB is a
    /// chunk of its own, which isn't copied. Refused only where memory runs out, and then no part of the piece was taken.
    pub fn hear_within(
        &mut self,
        number: u32,
        piece: &[u8],
        most: Option<u64>,
    ) -> Result<Chunks, AllocError>
        ensures responses { (p : Publication) → M.holds self.old.mirror p
            → IfOk result (λ text. RespondsOn (terms_of most M.may_fail) p
            (requests_next (rest_of self.old number) piece.now).complete text) }
        ensures rest { OnOk result (rest_of self.new number
            ≡ (requests_next (rest_of self.old number) piece.now).rest) }
        ensures open { IsSome (get self.old.connections number)
            → OnOk result (self.new ≡ with_rest self.old number
            (requests_next (rest_of self.old number) piece.now).rest) }
        ensures others { without self.new number ≡ without self.old number }
        ensures unchanged { OnErr result (self.new ≡ self.old) }
    {
        self.hear_as(number, piece, most)
    }

    /// Takes a piece of a connection, as [`Desk::hear_within`] does, and gives the responses in this form, as
    /// [`Gate::feed_as`].
    fn hear_as<R: ResponseBytes>(
        &mut self,
        number: u32,
        piece: &[u8],
        most: Option<u64>,
    ) -> Result<R, AllocError>
        ensures responses { (p : Publication) → M.holds self.old.mirror p
            → IfOk result (λ text. RespondsOn (terms_of most M.may_fail) p
            (requests_next (rest_of self.old number) piece.now).complete (R.bytes text)) }
        ensures rest { OnOk result (rest_of self.new number
            ≡ (requests_next (rest_of self.old number) piece.now).rest) }
        ensures open { IsSome (get self.old.connections number)
            → OnOk result (self.new ≡ with_rest self.old number
            (requests_next (rest_of self.old number) piece.now).rest) }
        ensures others { without self.new number ≡ without self.old number }
        ensures unchanged { OnErr result (self.new ≡ self.old) }
    {
        let Some(gate) = self.gates.get_mut(&number) else {
            return Ok(R::none(self.alloc));
        };
        gate.feed_as(piece, &mut self.mirror, most)
    }

    /// Forgets a connection, as the event `End` does, and tells whether it was open. It takes no memory.
    pub fn forget(&mut self, number: u32) -> bool
        ensures was { result ≡ is_some (get self.old.connections number) }
        ensures forgotten { self.new ≡ without self.old number }
    {
        self.gates.remove(&number).is_some()
    }
}

impl Desk<Snapshot> {
    /// The snapshot that is in force.
    pub fn snapshot(&self) -> &Snapshot
        ensures { result.now ≡ self.now.mirror }
    {
        self.mirror()
    }

    /// Takes an event, and gives the bytes for each connection that has some to get: for a piece those of its own
    /// connection, which may be none, and for any other event nothing. The program serves by `osm_traffic::serve_many`,
    /// which makes the same steps by the calls of a desk over any mirror.
    ///
    /// # Errors
    ///
    /// `AlreadyOpen` (D1) where an open connection is opened, else `NoRoom` (D3) where 64 are open. `NotOpen` (D2) where
    /// a piece arrives of a connection that isn't open, or one ends that isn't. `Refused` (D4) with the reason where
    /// changes are refused. `Memory` where an allocation was refused: not at an end, and not in place of D1 to D3.
    /// After a refusal all is as before.
    pub fn step(&mut self, event: Event) -> Result<Vec<(u32, Vec<u8>)>, DeskFault>
        // It does what the definition of a step says, or is refused as that says; the law of events is about such turns.
        ensures turn { IsTurn self.old
            (record { event = event; answer = answer_of result; after = self.new }) }
        // An event of a connection leaves the snapshot, a publication the connections.
        ensures leaves { LeavesRest event self.old self.new }
    {
        self.take(event)
    }

    /// Takes an event, as `step` does.
    fn take(&mut self, event: Event) -> Result<Vec<(u32, Vec<u8>)>, DeskFault>
        // As the definition of a step says, over whatever publication the snapshot holds.
        ensures steps { (p : Publication) → HoldsPublication self.old.mirror p
            → IfOk result (λ answers. HasStepped (desk_over self.old p) event
            (texts_of answers.items) self.new) }
        // It is refused as that says, and out of memory only where it may be.
        ensures refused { (p : Publication) → HoldsPublication self.old.mirror p
            → IfErr result (IsRefusal (desk_over self.old p) event) }
        // A refusal changes nothing,
        ensures unchanged { OnErr result ((self.new.connections ≡ self.old.connections)
            × IsAsBefore self.old.mirror self.new.mirror) }
        // and an event of a connection leaves the snapshot, a publication the connections.
        ensures leaves { LeavesRest event self.old self.new }
    {
        match event {
            Event::Open(number) => self.open(number)?,
            Event::Arrive(number, piece) => return self.arrive(number, &piece),
            Event::End(number) => {
                if !self.forget(number) {
                    return Err(DeskFault::NotOpen);
                }
            }
            Event::Publish(changes) => self.publish(&changes)?,
        }
        Ok(Vec::new(self.alloc))
    }

    /// Takes a piece of a connection, and gives the responses with its number.
    fn arrive(&mut self, number: u32, piece: &[u8]) -> Result<Vec<(u32, Vec<u8>)>, DeskFault>
        ensures responses { (p : Publication) → HoldsPublication self.old.mirror p
            → IfOk result (λ answers. HasArrived (desk_over self.old p) number piece.now
            (texts_of answers.items) self.new) }
        ensures refused { IfErr result (RefusesPiece self.old number) }
        ensures unchanged { OnErr result (self.new ≡ self.old) }
        ensures mirror { self.new.mirror ≡ self.old.mirror }
    {
        if !self.is_open(number) {
            return Err(DeskFault::NotOpen);
        }
        // Room for the answer comes first: after the piece is taken nothing may be refused.
        let Ok(mut answers) = Vec::with_capacity(self.alloc, 1) else {
            return Err(DeskFault::Memory);
        };
        let Ok(responses) = self.hear(number, piece) else {
            return Err(DeskFault::Memory);
        };
        answers.push((number, responses)).unwrap();
        Ok(answers)
    }

    /// Publishes changes, as the event `Publish`: what the snapshot holds afterwards is the changed set at the next
    /// sequence. All connections stay. What it costs, and what refuses it, is that of [`Snapshot::apply`], so over a
    /// snapshot of the first edition none are published; after a refusal all is as before.
    pub fn publish(&mut self, changes: &[Change]) -> Result<(), ApplyFault>
        ensures made { (p : Publication) → HoldsPublication self.old.mirror p
            → OnOk result ((q : Publication) × IsMade p changes.now (Ok q)
            × HoldsPublication self.new.mirror q) }
        ensures refused { (p : Publication) → HoldsPublication self.old.mirror p
            → IfErr result (RefusesChanges p changes.now) }
        ensures connections { self.new.connections ≡ self.old.connections }
        ensures unchanged { OnErr result (IsAsBefore self.old.mirror self.new.mirror) }
    {
        self.mirror.apply(self.alloc, changes)?;
        Ok(())
    }

    /// Publishes changes, as [`Desk::publish`] does, where the text is what their root is announced to be: the 64 hexadecimal
    /// digits, in lower case, of the root of what is in force afterwards. Any other text is no root's.
    ///
    /// # Errors
    ///
    /// Those of [`Snapshot::apply_announced`]: `Apply` as [`Desk::publish`] is refused, and `OtherRoot` (I6), which comes
    /// after I4 and before I1, where the changes give another root. After a refusal all is as before.
    pub fn publish_announced(
        &mut self,
        changes: &[Change],
        announced: &[u8],
    ) -> Result<(), AnnouncedFault>
        // In force is what the changes make, and its root is the one that is announced.
        ensures made { (p : Publication) → HoldsPublication self.old.mirror p
            → OnOk result ((q : Publication) × IsMade p changes.now (Ok q)
            × HoldsPublication self.new.mirror q × (announced.now ≡ root_digits q)) }
        // They are refused as by `publish`, or give another root.
        ensures refused { (p : Publication) → HoldsPublication self.old.mirror p
            → IfErr result (RefusesAnnounced p changes.now announced.now) }
        ensures connections { self.new.connections ≡ self.old.connections }
        ensures unchanged { OnErr result (IsAsBefore self.old.mirror self.new.mirror) }
    {
        self.mirror.apply_announced(self.alloc, changes, announced)?;
        Ok(())
    }
}
