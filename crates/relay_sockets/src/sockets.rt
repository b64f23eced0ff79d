//! The sockets of this machine.

use crate::leaving::Leaving;
use crate::mirror::Mirror;
use crate::patience::{LINGER_LIMIT, SWEEP_MILLISECONDS};
use crate::plug::Plug;
use crate::readiness::Readiness;
use crate::talk::Talk;
use loopback_listener::{LISTENER, Listener, NotTaken, RETRY_MILLISECONDS};
use mio::net::TcpStream;
use mio::{Events, Interest, Poll, Token};
use mirror_reply::is_host;
use osm_relay::{Awaits, CONVERSATION_LIMIT, Network, News, RelayFault, Room, Turn};
use std::collections::VecDeque;
use std::io;
use std::net::SocketAddr;
use std::time::{Duration, Instant};

/// How many events one wait takes.
const EVENTS: usize = 256;

/// How many turns a round may always have. Asking the system after each would cost as much as the turn itself.
const TURNS: usize = 16;

/// A socket that listens for clients of this machine (127.0.0.1), and the mirrors that are asked for them.
///
/// An event of the system only puts the conversation into a queue, if it tells of what the conversation waits for. A turn is
/// one read or write. In a round each that stood in the queue has its turn, and there are up to 16 turns even if fewer stood
/// there; then new clients are taken and the system is asked again: so none keeps the others waiting for longer than a round.
/// A conversation stays in the queue until a turn moves nothing, or until it waits for a side that may have sent nothing yet.
///
/// A client may send nothing for 10 seconds, and has 60 seconds for its request; it has to take its response at 1 MiB in 10
/// seconds at least. A mirror may send and take nothing for 60 seconds, and has 60 seconds for its response and 10 more for
/// each 64 KiB of it.
#[derive(Drop)]
pub struct Sockets<'a> {
    rt: &'a HostRuntime,
    poll: Poll,
    events: Events,
    listener: Listener,
    mirrors: Vec<Mirror>,
    talks: Vec<Talk>,
    leaving: Vec<Leaving>,
    /// Those that may go on, each once.
    queue: VecDeque<u32>,
    /// How many turns are left of this round.
    round: usize,
    /// The time, as it was last asked for.
    now: Instant,
    swept: Instant,
}

impl<'a> Sockets<'a> {
    /// Listens on this port; 0 asks for any that is free. These mirrors can be asked. Refused with what the system says where
    /// the port can't be had, with `OutOfMemory` where memory runs out.
    pub fn open(rt: &'a HostRuntime, port: u16, mirrors: Vec<Mirror>) -> io::Result<Sockets<'a>> {
        let alloc = rt.alloc();
        let now = Instant::now(rt)?;
        let poll = Poll::new(rt)?;
        let listener = Listener::open(rt, port, poll.registry())?;
        Ok(Sockets {
            rt,
            poll,
            events: Events::with_capacity(alloc, EVENTS)?,
            listener,
            mirrors,
            talks: Vec::with_capacity(alloc, CONVERSATION_LIMIT)?,
            leaving: Vec::with_capacity(alloc, LINGER_LIMIT)?,
            queue: VecDeque::with_capacity(alloc, 2 * CONVERSATION_LIMIT)?,
            round: 0,
            now,
            swept: now,
        })
    }

    /// Where it listens. Refused with what the system says where it doesn't tell.
    pub fn address(&self) -> io::Result<SocketAddr> {
        self.listener.address()
    }

    /// Reads on at the clients that were let go, until they close too, for two seconds at most.
    pub fn settle(&mut self) {
        for _ in 0..u64::MAX {
            self.let_late_go();
            if self.leaving.is_empty() {
                return;
            }
            if self
                .wait(Duration::from_millis(SWEEP_MILLISECONDS))
                .is_err()
            {
                return;
            }
        }
    }

    /// Waits at the system, for as long as nothing else is to do, and takes its events.
    fn wait(&mut self, timeout: Duration) -> Result<(), RelayFault> {
        if self.poll.poll(&mut self.events, Some(timeout)).is_err() {
            return Err(RelayFault::Device);
        }
        self.refresh();
        for event in &self.events {
            if event.token() == LISTENER {
                self.listener.note();
                continue;
            }
            let Token(token) = event.token();
            let is_client = token % 2 == 0;
            let readiness = Readiness::of(event);
            if let Some(talk) = find(&mut self.talks, token / 2) {
                let goes_on = if is_client {
                    talk.hear_client(readiness)
                } else {
                    talk.hear_mirror(readiness)
                };
                if goes_on {
                    enqueue(&mut self.queue, talk)?;
                }
            } else if is_client && readiness.reads {
                read_on(&mut self.leaving, token / 2);
            }
        }
        self.round = self.queue.len().max(TURNS);
        Ok(())
    }

    /// Asks for the time. Where the system doesn't say, it is as before.
    fn refresh(&mut self) {
        if let Ok(now) = Instant::now(self.rt) {
            self.now = now;
        }
    }

    /// For how long the system is waited at, where nothing happens.
    fn patience(&self, room: Room) -> Duration {
        if !self.queue.is_empty() {
            return Duration::ZERO;
        }
        if room == Room::Free && self.listener.is_paused(self.now) {
            return Duration::from_millis(RETRY_MILLISECONDS);
        }
        Duration::from_millis(SWEEP_MILLISECONDS)
    }

    /// The next of the queue that is still open, if the round goes on.
    fn next_in_queue(&mut self) -> Option<u32> {
        for _ in 0..self.round {
            let number = self.queue.pop_front()?;
            self.round = self.round.saturating_sub(1);
            if let Some(talk) = find(&mut self.talks, number as usize) {
                talk.is_queued = false;
                return Some(number);
            }
        }
        None
    }

    /// A conversation of which what it waits for has taken too long, if there is one.
    fn silent(&mut self) -> Option<u32> {
        let now = self.now;
        let talk = self.talks.iter_mut().find(|talk| talk.is_silent(now))?;
        talk.excuse(now);
        Some(talk.number)
    }

    /// Lets those go that were read on for long enough.
    fn let_late_go(&mut self) {
        let now = self.now;
        for _ in 0..self.leaving.len() {
            let Some(at) = self.leaving.iter().position(|one| one.is_late(now)) else {
                return;
            };
            self.leaving.swap_remove(at);
        }
    }

    /// Has the system tell of a socket, and makes a plug of it.
    fn plug(&self, mut stream: TcpStream, token: usize) -> Option<Plug> {
        // Where the option can't be set, the stream still serves.
        let _ = stream.set_nodelay(true);
        let both = Interest::READABLE | Interest::WRITABLE;
        match self
            .poll
            .registry()
            .register(&mut stream, Token(token), both)
        {
            Ok(()) => Some(Plug::new(stream)),
            Err(_) => None,
        }
    }
}

impl<'a> Network<Plug> for Sockets<'a> {
    ghost use Rattle.std.specs.Prelude.{None};

    ghost log = { λ _. None };

    fn next(&mut self, room: Room) -> Result<News, RelayFault> {
        for _ in 0..u64::MAX {
            if let Some(number) = self.next_in_queue() {
                return Ok(News::Ready(number));
            }
            if room == Room::Free
                && self.listener.is_waiting()
                && !self.listener.is_paused(self.now)
            {
                return Ok(News::Waiting);
            }
            if self.now.duration_since(self.swept) >= Duration::from_millis(SWEEP_MILLISECONDS) {
                if let Some(number) = self.silent() {
                    return Ok(News::Silent(number));
                }
                self.let_late_go();
                self.swept = self.now;
            }
            self.wait(self.patience(room))?;
        }
        Err(RelayFault::Endless)
    }

    fn take(&mut self, number: u32) -> Result<Option<Plug>, RelayFault> {
        self.refresh();
        let stream = match self.listener.accept(self.now) {
            Ok(Some(stream)) => stream,
            Ok(None) => return Ok(None),
            Err(NotTaken) => return Err(RelayFault::Device),
        };
        let Some(plug) = self.plug(stream, 2 * number as usize) else {
            return Ok(None);
        };
        match self.talks.push(Talk::new(number, self.now)) {
            Ok(()) => Ok(Some(plug)),
            Err(_) => Err(RelayFault::Memory),
        }
    }

    fn host(&self, mirror: usize) -> Option<&str> {
        let host = self.mirrors.get(mirror)?.host.as_str();
        if is_host(host) { Some(host) } else { None }
    }

    fn dial(&mut self, number: u32, mirror: usize) -> Option<Plug> {
        if let Some(talk) = find(&mut self.talks, number as usize) {
            talk.dial();
        }
        let mirror = self.mirrors.get(mirror)?;
        let Ok(stream) = TcpStream::connect(self.rt, mirror.address) else {
            return None;
        };
        self.plug(stream, 2 * number as usize + 1)
    }

    fn note(&mut self, number: u32, awaits: Awaits, turn: Turn) {
        // A turn may have taken long: checking a proof does.
        self.refresh();
        let now = self.now;
        let Some(talk) = find(&mut self.talks, number as usize) else {
            return;
        };
        if talk.note(awaits, turn, now) {
            // Where there is no memory for it, an event or the sweep has it go on.
            let _ = enqueue(&mut self.queue, talk);
        }
    }

    /// Tells the client that nothing more comes, and reads on until it closes its side too.
    fn let_go(&mut self, number: u32, mut client: Plug, whole: bool) {
        let mut is_silent = client.is_drained();
        if let Some(at) = self.talks.iter().position(|talk| talk.number == number) {
            let talk = self.talks.swap_remove(at);
            is_silent = is_silent && !talk.is_client_heard;
        }
        let is_room = self.leaving.len() < LINGER_LIMIT;
        if whole && is_room && client.end() {
            let mut leaving = Leaving::new(number, client, self.now);
            // Where there is nothing to read yet, the system tells once there is.
            if is_silent || leaving.read_on() {
                let _ = self.leaving.push(leaving);
            }
        }
    }
}

fn find(talks: &mut Vec<Talk>, number: usize) -> Option<&mut Talk> {
    talks.iter_mut().find(|talk| talk.number as usize == number)
}

/// Puts a conversation into the queue, if it isn't there.
fn enqueue(queue: &mut VecDeque<u32>, talk: &mut Talk) -> Result<(), RelayFault> {
    if talk.is_queued {
        return Ok(());
    }
    match queue.push_back(talk.number) {
        Ok(()) => {
            talk.is_queued = true;
            Ok(())
        }
        Err(_) => Err(RelayFault::Memory),
    }
}

/// Reads on at a client that was let go, and closes it where that is enough.
fn read_on(leaving: &mut Vec<Leaving>, number: usize) {
    let Some(at) = leaving.iter().position(|one| one.number as usize == number) else {
        return;
    };
    let Some(one) = leaving.get_mut(at) else {
        return;
    };
    if !one.read_on() {
        leaving.swap_remove(at);
    }
}
