//! Conversations.

ghost use Rattle.std.specs.Prelude.{◌≡◌, ◌↔◌, IsSome, None, option_map, true};
ghost use Rattle.osm_relay.specs.Logs.{fresh};
ghost use Rattle.osm_relay.specs.Relayed.{IsPromised};

use crate::hearing::Heard;
use crate::network::Network;
use crate::stage::Stage;
use crate::stepping::{impatient, step_on};
use crate::terms::Terms;
use crate::turn::{Awaits, Turn};
use crate::wire::Wire;
use std::alloc::Global;
use std::marker::Model;
use std::mem;

/// One client, and the mirror that is asked for it. Contracts see its terms, what went over both wires, and whether it is over.
///
/// Only the client's first request is answered, and the connection ends after it. The mirror isn't trusted.
#[derive(Drop)]
pub struct Conversation<W: Wire> {
    number: u32,
    terms: Terms,
    client: W,
    /// The wire of the last mirror asked, if there is one.
    mirror: Option<W>,
    stage: Stage,
}

impl<W: Wire> Model for Conversation<W> {
    ghost use Rattle.std.specs.Prelude.{◌≡◌, option_map, true};
    ghost use Rattle.osm_relay.specs.Relayed.{Standing};

    ghost Value = { Standing };

    ghost use Rattle.osm_relay.specs.internal.Stages.{StandsAt, ending_of};

    ghost view = { λ s. record {
      number = s.number;
      terms = s.terms;
      tells = W.tells;
      client = W.log s.client;
      mirror = option_map W.log s.mirror;
      ending = ending_of s.stage;
    } };

    ghost invariant = { λ s. W.tells ≡ true
        → StandsAt s.terms s.stage (W.log s.client) (option_map W.log s.mirror) };
}

impl<W: Wire> Conversation<W> {
    /// A client that has just come. It takes no memory.
    pub fn new(alloc: Global, number: u32, terms: Terms, client: W) -> Conversation<W>
        requires { W.tells ≡ true → W.log client ≡ fresh }
        ensures { result ≡ record { number = number; terms = terms; tells = W.tells; client = W.log client; mirror = None; ending = None } }
    {
        Conversation {
            number,
            terms,
            client,
            mirror: None,
            stage: Stage::Hearing(Heard::new(alloc)),
        }
    }

    /// The promise of every conversation, at any time: what the client took is a beginning of the response to its first
    /// request, or nothing, and a mirror is asked only for what the client wants.
    pub fn promise(&self)
        ensures { IsPromised self.now }
    {
        let _ = &self.stage;
    }

    /// Its number.
    pub fn number(&self) -> u32
        ensures { result ≡ self.now.number }
    {
        self.number
    }

    /// Whether it is over, and if so whether the client took all of its response.
    pub fn ending(&self) -> Option<bool>
        ensures { result ≡ self.now.ending }
    {
        match &self.stage {
            Stage::Over { whole } => Some(*whole),
            _ => None,
        }
    }

    /// What it waits for.
    pub fn awaits(&self) -> Awaits
        ensures { (result ≡ Awaits.Nothing) ↔ IsSome self.now.ending }
    {
        match &self.stage {
            Stage::Hearing(_) => Awaits::Request,
            Stage::Choosing(_) | Stage::Asking { .. } => Awaits::Mirror,
            Stage::Listening { .. } => Awaits::Reply,
            Stage::Answering(_) => Awaits::Client,
            Stage::Over { .. } => Awaits::Nothing,
        }
    }

    /// Goes on, by one read or one write at most. Where memory runs out, the client is told so.
    pub fn turn<N: Network<W>>(&mut self, alloc: Global, network: &mut N) -> Turn
        ensures promised { IsPromised self.new }
        ensures terms { self.new.terms ≡ self.old.terms }
        ensures number { self.new.number ≡ self.old.number }
        ensures tells { self.new.tells ≡ W.tells }
        ensures log { N.log network.new ≡ N.log network.old }
    {
        let stage = mem::replace(&mut self.stage, Stage::Over { whole: false });
        let step = step_on(
            alloc,
            &self.terms,
            &mut self.client,
            &mut self.mirror,
            network,
            self.number,
            stage,
        );
        self.stage = step.stage;
        step.turn
    }

    /// What it waits for has taken too long. A client is given up, and in place of a mirror the next one is asked.
    pub fn lose_patience(&mut self)
        ensures promised { IsPromised self.new }
        ensures terms { self.new.terms ≡ self.old.terms }
        ensures number { self.new.number ≡ self.old.number }
        ensures client { self.new.client ≡ self.old.client }
        ensures mirror { self.new.mirror ≡ self.old.mirror }
    {
        let stage = mem::replace(&mut self.stage, Stage::Over { whole: false });
        self.stage = impatient(stage);
    }

    /// Gives the client's wire back, and that of the last mirror asked, once the conversation is over.
    pub fn into_wires(self) -> (W, Option<W>)
        requires { IsSome self.ending }
        ensures client { W.log result.0 ≡ self.client }
        ensures mirror { option_map W.log result.1 ≡ self.mirror }
    {
        let Conversation {
            number: _,
            terms: _,
            client,
            mirror,
            stage: _,
        } = self;
        (client, mirror)
    }
}
