//! A network that a test plays.

use osm_traffic::{News, Reading, Room, Traffic, TrafficFault, Writing, give_piece};
use std::alloc::Global;
use test_devices::Numbers;

/// A client.
#[derive(Drop)]
pub(super) struct Client {
    /// How many bytes of the text have arrived.
    pub(super) sent: usize,
    /// What its socket took.
    pub(super) got: Vec<u8>,
    /// Whether it was let go as a whole one, if it was let go.
    pub(super) end: Option<bool>,
    /// How much it had got when it was last read.
    noted: usize,
    /// How many came at most between two reads.
    pub(super) most_at_once: usize,
}

impl Client {
    /// Notes how many responses came since it was last read.
    fn note(&mut self) {
        let more = self.got.get(self.noted..).unwrap_or(b"");
        self.most_at_once = self.most_at_once.max(responses_in(more));
        self.noted = self.got.len();
    }
}

/// How many responses begin in these bytes.
fn responses_in(bytes: &[u8]) -> usize {
    bytes
        .windows(9)
        .filter(|front| *front == b"HTTP/1.1 ".as_slice())
        .count()
}

/// Clients that send a text in pieces that are cut anywhere, and take what they are given in pieces, too. What happens
/// next depends on a seed, and may be told in vain. Some connections break.
#[derive(Drop)]
pub(super) struct Network {
    alloc: Global,
    text: &'static [u8],
    /// All that is left comes at once, and it is counted how many responses come between two reads.
    pub(super) in_bursts: bool,
    numbers: Numbers,
    /// One in so many reads and writes finds that the connection is broken; none does where it is 0.
    breaks: u32,
    /// The call of `next` that fails, from 1; none does where it is 0.
    fails_at: u32,
    calls: u32,
    /// How many clients came.
    came: u32,
    pub(super) clients: Vec<Client>,
    /// How many connections are open, and were at most.
    open: u32,
    pub(super) most_open: u32,
}

impl Network {
    /// A network to which nobody has come yet.
    pub(super) fn new(
        alloc: Global,
        text: &'static [u8],
        seed: u64,
        breaks: u32,
        fails_at: u32,
    ) -> Network {
        Network {
            alloc,
            text,
            in_bursts: false,
            numbers: Numbers::new(seed),
            breaks,
            fails_at,
            calls: 0,
            came: 0,
            clients: Vec::new(alloc),
            open: 0,
            most_open: 0,
        }
    }

    /// The client of this number, if its connection is open and doesn't break now.
    fn client(&mut self, number: u32) -> Option<&mut Client> {
        if self.breaks > 0 && self.numbers.happens(self.breaks) {
            return None;
        }
        match self.clients.get_mut(number as usize) {
            Some(client) if client.end.is_none() => Some(client),
            _ => None,
        }
    }
}

impl Traffic for Network {
    ghost use Rattle.std.specs.Prelude.{None};

    ghost log = { λ _. None };

    fn next(&mut self, room: Room) -> Result<News, TrafficFault> {
        self.calls = self.calls.saturating_add(1);
        if self.calls == self.fails_at {
            return Err(TrafficFault::Device);
        }
        if room == Room::Free && self.numbers.happens(8) {
            return Ok(News::Waiting);
        }
        let number = self.numbers.below(self.came.saturating_add(1));
        if self.breaks > 0 && self.numbers.happens(self.breaks) {
            return Ok(News::Silent(number));
        }
        Ok(match self.numbers.below(8) {
            0 => News::Look,
            1 | 2 | 3 => News::Writable(number),
            _ => News::Readable(number),
        })
    }

    fn take(&mut self, _number: u32) -> Result<bool, TrafficFault> {
        if self.numbers.happens(8) {
            return Ok(false);
        }
        let client = Client {
            sent: 0,
            got: Vec::new(self.alloc),
            end: None,
            noted: 0,
            most_at_once: 0,
        };
        let Ok(()) = self.clients.push(client) else {
            return Err(TrafficFault::Memory);
        };
        self.came = self.came.saturating_add(1);
        self.open = self.open.saturating_add(1);
        self.most_open = self.most_open.max(self.open);
        Ok(true)
    }

    fn read(&mut self, number: u32, piece: &mut [u8]) -> Reading {
        let most = self.numbers.below(90) as usize;
        let in_bursts = self.in_bursts;
        let text = self.text;
        let Some(client) = self.client(number) else {
            return Reading::Gone;
        };
        let left = text.get(client.sent..).unwrap_or(b"");
        let most = if in_bursts { left.len() } else { most };
        if in_bursts {
            client.note();
        }
        if left.is_empty() {
            return Reading::Ended;
        }
        let (front, _) = left.split_at(most.min(left.len()));
        let count = give_piece(front, piece);
        client.sent = client.sent.saturating_add(count);
        if count == 0 {
            Reading::Later
        } else {
            Reading::Got(count)
        }
    }

    fn write(&mut self, number: u32, bytes: &[u8]) -> Writing {
        let most = self.numbers.below(200) as usize;
        let Some(client) = self.client(number) else {
            return Writing::Gone;
        };
        let count = most.min(bytes.len());
        match client.got.extend_from_slice(&bytes[..count]) {
            Ok(()) => Writing::Took(count),
            Err(_) => Writing::Gone,
        }
    }

    fn end(&mut self, number: u32, whole: bool) -> bool {
        let in_bursts = self.in_bursts;
        let Some(client) = self.clients.get_mut(number as usize) else {
            return false;
        };
        if client.end.is_some() {
            return false;
        }
        client.end = Some(whole);
        if in_bursts {
            client.note();
        }
        self.open = self.open.saturating_sub(1);
        true
    }
}
