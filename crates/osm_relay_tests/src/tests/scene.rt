//! A network that a test plays.

use mirror_reply::is_host;
use osm_relay::{Awaits, Network, News, Reading, RelayFault, Room, Turn, Wire, Writing};
use std::alloc::{AllocError, Global};
use std::collections::VecDeque;

/// The name of each mirror.
const HOST: &str = "mirror.example:80";

/// What comes after all that the other side sends.
#[derive(Clone, Copy, PartialEq, Eq)]
pub(super) enum Then {
    Closes,
    Stalls,
    Breaks,
}

/// What a mirror does.
#[derive(Drop)]
pub(super) struct Play {
    /// No connection to it is opened.
    pub(super) is_away: bool,
    /// It takes nothing of the request: the connection breaks.
    pub(super) is_deaf: bool,
    /// What it sends once it has taken the request that it waits for.
    pub(super) sends: Vec<u8>,
    pub(super) request: Vec<u8>,
    pub(super) then: Then,
}

/// A wire.
#[derive(Drop)]
pub(super) struct Line {
    sends: Vec<u8>,
    given: usize,
    then: Then,
    is_deaf: bool,
    /// How many bytes a call moves at most.
    step: usize,
    /// It sends nothing before it has taken so much.
    waits_for: usize,
    pub(super) got: Vec<u8>,
}

impl Wire for Line {
    ghost use Rattle.osm_relay.specs.Logs.{fresh};
    ghost use Rattle.std.specs.Prelude.{false};

    ghost tells = { false };

    ghost log = { λ _. fresh };

    fn read(&mut self, piece: &mut [u8]) -> Reading {
        let left = self.sends.get(self.given..).unwrap_or(b"");
        if left.is_empty() || self.got.len() < self.waits_for {
            return match self.then {
                Then::Closes => Reading::Ended,
                Then::Stalls => Reading::Later,
                Then::Breaks => Reading::Gone,
            };
        }
        let count = self.step.min(left.len()).min(piece.len());
        if count == 0 {
            return Reading::Later;
        }
        piece[..count].copy_from_slice(&left[..count]);
        self.given = self.given.saturating_add(count);
        Reading::Got(count)
    }

    fn write(&mut self, bytes: &[u8]) -> Writing {
        if self.is_deaf {
            return Writing::Gone;
        }
        let count = self.step.min(bytes.len());
        match self.got.extend_from_slice(&bytes[..count]) {
            Ok(()) => Writing::Took(count),
            Err(_) => Writing::Gone,
        }
    }
}

/// A client that was let go.
#[derive(Drop)]
pub(super) struct Gone {
    pub(super) number: u32,
    pub(super) got: Vec<u8>,
    pub(super) whole: bool,
}

/// Clients that all send the same text, and mirrors.
#[derive(Drop)]
pub(super) struct Scene {
    alloc: Global,
    text: Vec<u8>,
    then: Then,
    step: usize,
    pub(super) plays: Vec<Play>,
    /// How many clients come.
    coming: u32,
    queue: VecDeque<u32>,
    /// Those that wait for a wire.
    idle: VecDeque<u32>,
    pub(super) gone: Vec<Gone>,
    pub(super) dials: u32,
    open: u32,
    pub(super) most_open: u32,
}

impl Scene {
    /// Clients that send this text, of which each call moves so many bytes at most.
    pub(super) fn new(alloc: Global, text: &[u8], step: usize) -> Result<Scene, AllocError> {
        Ok(Scene {
            alloc,
            text: text.to_vec(alloc)?,
            then: Then::Stalls,
            step,
            plays: Vec::new(alloc),
            coming: u32::MAX,
            queue: VecDeque::new(alloc),
            idle: VecDeque::new(alloc),
            gone: Vec::new(alloc),
            dials: 0,
            open: 0,
            most_open: 0,
        })
    }

    /// After the text each client does this.
    pub(super) fn then(&mut self, then: Then) {
        self.then = then;
    }

    /// One more mirror, which sends this once it has taken this request.
    pub(super) fn add(
        &mut self,
        request: &[u8],
        sends: &[u8],
        then: Then,
    ) -> Result<(), AllocError> {
        let play = Play {
            is_away: false,
            is_deaf: false,
            sends: sends.to_vec(self.alloc)?,
            request: request.to_vec(self.alloc)?,
            then,
        };
        self.plays.push(play)?;
        Ok(())
    }

    fn line(&self, sends: Vec<u8>, then: Then) -> Line {
        Line {
            sends,
            given: 0,
            then,
            is_deaf: false,
            step: self.step,
            waits_for: 0,
            got: Vec::new(self.alloc),
        }
    }
}

impl Network<Line> for Scene {
    ghost use Rattle.std.specs.Prelude.{None};

    ghost log = { λ _. None };

    fn next(&mut self, room: Room) -> Result<News, RelayFault> {
        if room == Room::Free && self.coming > 0 {
            return Ok(News::Waiting);
        }
        if let Some(number) = self.queue.pop_front() {
            return Ok(News::Ready(number));
        }
        match self.idle.pop_front() {
            Some(number) => Ok(News::Silent(number)),
            None => Err(RelayFault::Device),
        }
    }

    fn take(&mut self, _number: u32) -> Result<Option<Line>, RelayFault> {
        let Ok(text) = self.text.as_slice().to_vec(self.alloc) else {
            return Err(RelayFault::Memory);
        };
        self.coming = self.coming.saturating_sub(1);
        self.open = self.open.saturating_add(1);
        self.most_open = self.most_open.max(self.open);
        Ok(Some(self.line(text, self.then)))
    }

    fn host(&self, mirror: usize) -> Option<&str> {
        if mirror < self.plays.len() && is_host(HOST) {
            Some(HOST)
        } else {
            None
        }
    }

    fn dial(&mut self, _number: u32, mirror: usize) -> Option<Line> {
        self.dials = self.dials.saturating_add(1);
        let play = self.plays.get(mirror)?;
        if play.is_away {
            return None;
        }
        let Ok(sends) = play.sends.as_slice().to_vec(self.alloc) else {
            return None;
        };
        let mut line = self.line(sends, play.then);
        line.is_deaf = play.is_deaf;
        line.waits_for = play.request.len();
        Some(line)
    }

    fn note(&mut self, number: u32, _awaits: Awaits, turn: Turn) {
        let queue = match turn {
            Turn::Moved(_) => &mut self.queue,
            Turn::Waits => &mut self.idle,
        };
        let _ = queue.push_back(number);
    }

    fn let_go(&mut self, number: u32, client: Line, whole: bool) {
        self.open = self.open.saturating_sub(1);
        let Line { got, .. } = client;
        let gone = Gone { number, got, whole };
        let _ = self.gone.push(gone);
    }
}
