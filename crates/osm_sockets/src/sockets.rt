//! The sockets of this machine.

use crate::patience::{LINGER_LIMIT, SWEEP_MILLISECONDS};
use crate::peer::{Peer, SocketRead};
use loopback_listener::{LISTENER, Listener, NotTaken, RETRY_MILLISECONDS};
use mio::event::Event;
use mio::net::TcpStream;
use mio::{Events, Interest, Poll, Token};
use osm_traffic::{News, Reading, Room, Traffic, TrafficFault, Writing};
use std::collections::VecDeque;
use std::io;
use std::io::ErrorKind;
use std::net::SocketAddr;
use std::time::{Duration, Instant};

/// How many events one wait takes.
const EVENTS: usize = 128;

/// For how many connections there is memory from the beginning: 64 that are open, as many that were let go, and one that
/// comes.
const PEERS: usize = 2 * LINGER_LIMIT + 1;

/// A socket that listens for clients of this machine (127.0.0.1), and the connections that were taken from it.
///
/// An event of the system only sets flags and puts the connection into a queue. Each that stands there has its turn, a
/// piece at a time, before the system is asked again: so none keeps the others waiting for longer than a round. A
/// connection stays in the queue until a call says that there is nothing more to read, or no room to write.
///
/// A client may keep its connection for 10 seconds without sending or taking a byte, and has 60 seconds for a request,
/// from the first byte that was read of it. Where 64 connections are open and one more waits, the one that has been
/// silent longest and owes nothing is told as silent, too.
#[derive(Drop)]
pub struct Sockets<'a> {
    rt: &'a HostRuntime,
    poll: Poll,
    events: Events,
    listener: Listener,
    peers: Vec<Peer>,
    /// Those that something is to be told of, each once.
    queue: VecDeque<u32>,
    /// How many of the queue are told of before the system is asked again.
    round: usize,
    /// How often changes are looked for, if at all.
    looks: Option<Duration>,
    /// The time, as it was last asked for.
    now: Instant,
    /// When a look for changes was last over.
    looked: Instant,
    /// One was told of, and isn't known to be over.
    is_looking: bool,
    swept: Instant,
}

impl<'a> Sockets<'a> {
    /// Listens on this port; 0 asks for any that is free. It is time to look for changes this often, if at all. Refused
    /// with what the system says where the port can't be had, with `OutOfMemory` where memory runs out.
    pub fn open(
        rt: &'a HostRuntime,
        port: u16,
        looks: Option<Duration>,
    ) -> io::Result<Sockets<'a>> {
        let alloc = rt.alloc();
        let now = Instant::now(rt)?;
        let poll = Poll::new(rt)?;
        let listener = Listener::open(rt, port, poll.registry())?;
        Ok(Sockets {
            rt,
            poll,
            events: Events::with_capacity(alloc, EVENTS)?,
            listener,
            peers: Vec::with_capacity(alloc, PEERS)?,
            queue: VecDeque::with_capacity(alloc, 2 * PEERS)?,
            round: 0,
            looks,
            now,
            looked: now,
            is_looking: false,
            swept: now,
        })
    }

    /// Where it listens. Refused with what the system says where it doesn't tell.
    pub fn address(&self) -> io::Result<SocketAddr> {
        self.listener.address()
    }

    /// Reads on at the connections that were let go, until their clients close them too, for two seconds at most: where
    /// bytes are left unread, closing at once would have the system throw away what a client hasn't read yet.
    pub fn settle(&mut self) {
        for _ in 0..u64::MAX {
            for _ in 0..self.queue.len() {
                let _ = self.next_in_queue();
            }
            let _ = self.silent();
            if !self.peers.iter().any(|peer| peer.is_leaving) {
                return;
            }
            if self
                .wait(Duration::from_millis(SWEEP_MILLISECONDS))
                .is_err()
            {
                return;
            }
        }
    }

    /// Has the system tell of a connection's socket, and tells whether it will.
    fn register(&self, stream: &mut TcpStream, number: u32) -> bool {
        // Where the option can't be set, the stream still serves.
        let _ = stream.set_nodelay(true);
        let both = Interest::READABLE | Interest::WRITABLE;
        self.poll
            .registry()
            .register(stream, Token(number as usize), both)
            .is_ok()
    }

    fn find(&self, number: u32) -> Option<usize> {
        self.peers.iter().position(|peer| peer.number == number)
    }

    /// Waits at the system, for as long as nothing else is to do, and takes its events.
    fn wait(&mut self, timeout: Duration) -> Result<(), TrafficFault> {
        if self.poll.poll(&mut self.events, Some(timeout)).is_err() {
            return Err(TrafficFault::Device);
        }
        self.refresh();
        for event in &self.events {
            if event.token() == LISTENER {
                self.listener.note();
            } else {
                note(&mut self.peers, &mut self.queue, event)?;
            }
        }
        self.round = self.queue.len();
        Ok(())
    }

    /// Asks for the time. Where the system doesn't say, it is as before.
    fn refresh(&mut self) {
        if let Ok(now) = Instant::now(self.rt) {
            self.now = now;
        }
    }

    /// For how long the system is waited at, where nothing happens.
    fn patience(&self, room: Room) -> Duration {
        if !self.queue.is_empty() {
            return Duration::ZERO;
        }
        if room == Room::Free && self.listener.is_paused(self.now) {
            return Duration::from_millis(RETRY_MILLISECONDS);
        }
        let sweep = Duration::from_millis(SWEEP_MILLISECONDS);
        match self.looks {
            Some(often) if often < sweep => often,
            _ => sweep,
        }
    }

    /// The next of the queue, if something is to be told of it.
    fn next_in_queue(&mut self) -> Option<News> {
        let number = self.queue.pop_front()?;
        let at = self.find(number)?;
        let peer = self.peers.get_mut(at)?;
        peer.is_queued = false;
        if peer.is_leaving {
            self.read_on(at);
            return None;
        }
        if !peer.has_turn() {
            return None;
        }
        if peer.is_behind() {
            Some(News::Writable(number))
        } else {
            Some(News::Readable(number))
        }
    }

    /// Reads on at a connection that was let go, and closes it where that is enough.
    fn read_on(&mut self, at: usize) {
        let Some(peer) = self.peers.get_mut(at) else {
            return;
        };
        let stays = match peer.read_on() {
            SocketRead::Again => enqueue(&mut self.queue, peer),
            SocketRead::Nothing => true,
            SocketRead::Bytes | SocketRead::End | SocketRead::Broken => false,
        };
        if !stays {
            self.close(at);
        }
    }

    fn close(&mut self, at: usize) {
        if at < self.peers.len() {
            self.peers.swap_remove(at);
        }
    }

    /// A connection that has kept its place for too long, if there is one. Those that were let go are closed on the way.
    fn silent(&mut self) -> Option<u32> {
        for _ in 0..self.peers.len() {
            let now = self.now;
            let at = self.peers.iter().position(|peer| peer.is_silent(now))?;
            let peer = self.peers.get(at)?;
            if !peer.is_leaving {
                return Some(peer.number);
            }
            self.close(at);
        }
        None
    }

    /// A look for changes is over, if there was one. The time until the next is counted from here, since it may have taken
    /// long.
    fn end_look(&mut self) {
        if self.is_looking {
            self.is_looking = false;
            self.refresh();
            self.looked = self.now;
        }
    }

    /// Whether it is time to look for changes.
    fn looks_now(&self) -> bool {
        match self.looks {
            Some(often) => self.now.duration_since(self.looked) >= often,
            None => false,
        }
    }

    /// The connection that has been silent longest and owes nothing, where one more waits for a place.
    fn one_to_go(&mut self) -> Result<Option<u32>, TrafficFault> {
        if !self.listener.is_waiting() {
            return Ok(None);
        }
        if !self.listener.is_sure() {
            if self.listener.ask_again(self.poll.registry()).is_err() {
                return Err(TrafficFault::Device);
            }
            self.wait(Duration::ZERO)?;
            if !self.listener.is_waiting() {
                return Ok(None);
            }
        }
        let mut oldest: Option<&Peer> = None;
        for peer in &self.peers {
            if peer.may_go() && is_before(peer, oldest) {
                oldest = Some(peer);
            }
        }
        match oldest {
            Some(peer) => Ok(Some(peer.number)),
            None => Ok(None),
        }
    }
}

impl<'a> Traffic for Sockets<'a> {
    ghost use Rattle.std.specs.Prelude.{None};

    ghost log = { λ _. None };

    fn next(&mut self, room: Room) -> Result<News, TrafficFault> {
        self.end_look();
        for _ in 0..u64::MAX {
            if self.round > 0 {
                self.round -= 1;
                if let Some(news) = self.next_in_queue() {
                    return Ok(news);
                }
                continue;
            }
            if room == Room::Free
                && self.listener.is_waiting()
                && !self.listener.is_paused(self.now)
            {
                return Ok(News::Waiting);
            }
            if room == Room::Full {
                if let Some(number) = self.one_to_go()? {
                    return Ok(News::Silent(number));
                }
            }
            if self.looks_now() {
                self.is_looking = true;
                return Ok(News::Look);
            }
            if self.now.duration_since(self.swept) >= Duration::from_millis(SWEEP_MILLISECONDS) {
                if let Some(number) = self.silent() {
                    return Ok(News::Silent(number));
                }
                self.swept = self.now;
            }
            self.wait(self.patience(room))?;
        }
        Err(TrafficFault::Endless)
    }

    fn take(&mut self, number: u32) -> Result<bool, TrafficFault> {
        self.refresh();
        let mut stream = match self.listener.accept(self.now) {
            Ok(Some(stream)) => stream,
            Ok(None) => return Ok(false),
            Err(NotTaken) => return Err(TrafficFault::Device),
        };
        if !self.register(&mut stream, number) {
            return Ok(false);
        }
        let Ok(peer) = Peer::new(self.rt.alloc(), number, stream, self.now) else {
            return Err(TrafficFault::Memory);
        };
        match self.peers.push(peer) {
            Ok(()) => Ok(true),
            Err(_) => Err(TrafficFault::Memory),
        }
    }

    fn read(&mut self, number: u32, piece: &mut [u8]) -> Reading {
        let Some(at) = self.find(number) else {
            return Reading::Gone;
        };
        let Some(peer) = self.peers.get_mut(at) else {
            return Reading::Gone;
        };
        let count = match peer.fill(self.now) {
            SocketRead::Bytes => peer.give(piece, self.now),
            SocketRead::Nothing | SocketRead::Again => 0,
            SocketRead::End => return Reading::Ended,
            SocketRead::Broken => return Reading::Gone,
        };
        if peer.has_turn() && !enqueue(&mut self.queue, peer) {
            return Reading::Gone;
        }
        if count == 0 {
            Reading::Later
        } else {
            Reading::Got(count)
        }
    }

    fn write(&mut self, number: u32, bytes: &[u8]) -> Writing {
        // What is written may have taken long to make.
        self.refresh();
        let Some(at) = self.find(number) else {
            return Writing::Gone;
        };
        let Some(peer) = self.peers.get_mut(at) else {
            return Writing::Gone;
        };
        let count = match peer.write(bytes, self.now) {
            Ok(count) => count,
            Err(error) if may_pass(error.kind()) => 0,
            Err(_) => return Writing::Gone,
        };
        if peer.has_turn() && !enqueue(&mut self.queue, peer) {
            return Writing::Gone;
        }
        Writing::Took(count)
    }

    /// Tells the client that nothing more comes, and reads on until it closes its side too: where bytes are left unread,
    /// closing at once would have the system throw away what the client hasn't read yet (RFC 9112, section 9.6).
    fn end(&mut self, number: u32, whole: bool) -> bool {
        let Some(at) = self.find(number) else {
            return false;
        };
        let leaving = self.peers.iter().filter(|peer| peer.is_leaving).count();
        let now = self.now;
        let Some(peer) = self.peers.get_mut(at) else {
            return false;
        };
        if !whole || leaving >= LINGER_LIMIT || !peer.leave(now) {
            self.close(at);
            return true;
        }
        if peer.has_turn() && !enqueue(&mut self.queue, peer) {
            self.close(at);
        }
        true
    }
}

/// Puts a connection into the queue, if it isn't there, and tells whether there was memory for it.
fn enqueue(queue: &mut VecDeque<u32>, peer: &mut Peer) -> bool {
    if peer.is_queued {
        return true;
    }
    peer.is_queued = true;
    queue.push_back(peer.number).is_ok()
}

/// Notes what the system tells of a connection.
fn note(
    peers: &mut Vec<Peer>,
    queue: &mut VecDeque<u32>,
    event: &Event,
) -> Result<(), TrafficFault> {
    let Token(token) = event.token();
    let Some(peer) = peers.iter_mut().find(|peer| peer.number as usize == token) else {
        return Ok(());
    };
    peer.note(
        event.is_readable(),
        event.is_writable(),
        event.is_read_closed() || event.is_error(),
    );
    if enqueue(queue, peer) {
        Ok(())
    } else {
        Err(TrafficFault::Memory)
    }
}

/// Whether it has been silent for longer than the other one, if there is another one.
fn is_before(peer: &Peer, other: Option<&Peer>) -> bool {
    match other {
        Some(other) => peer.heard() < other.heard(),
        None => true,
    }
}

/// Whether a write that failed may well succeed later.
fn may_pass(kind: ErrorKind) -> bool {
    kind == ErrorKind::WouldBlock || kind == ErrorKind::Interrupted
}
