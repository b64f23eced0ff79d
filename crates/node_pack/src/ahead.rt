//! Reading ahead: what hints lead to is brought from a remote file, a level of the trees in each round.

ghost use Rattle.std.specs.List.{Contains};
ghost use Rattle.std.specs.Prelude.{◌≡◌, [], ℕ, List, OnOk, Option};
ghost use Rattle.node_pack.specs.Packs.{Kept};

use crate::announced::Announced;
use crate::hint::Hint;
use crate::led::{add_below, add_tops};
use crate::place::Place;
use crate::read_at::{ReadAt, ReadFault};
use crate::round::{mark, new_places, tell};
use crate::source::PackSource;
use crate::step::Step;
use std::alloc::Global;
use std::collections::HashSet;
use tree_node::Digest;

/// A tree has no more levels.
const LEVELS: u8 = 64;

/// How many nodes of a level are brought for hints at most, or at most 63 more. Leaves are seldom smaller than some kilobytes,
/// so these have hundreds of megabytes.
const LEVEL_NODES: usize = 65_536;

/// How many bytes of inner nodes are read for the hints of one round trip at most, 64 MiB. An inner node has some two kilobytes.
const INNER_BYTES: u64 = 67_108_864;

/// How many bytes an inner node has at most, with 64 keys of 8,203 bytes.
const INNER_LIMIT: usize = 527_684;

/// What is known of hints.
#[derive(Drop)]
pub(crate) struct Ahead {
    alloc: Global,
    announced: Announced,
    /// The offsets of the records that were brought.
    brought: HashSet<u64>,
}

impl Ahead {
    /// Nothing was announced, and nothing brought.
    pub(crate) fn new(alloc: Global) -> Ahead {
        Ahead {
            alloc,
            announced: Announced::new(alloc),
            brought: HashSet::new(alloc),
        }
    }

    /// Keeps a hint as far as there are room and memory.
    pub(crate) fn hear(&mut self, top: &Digest, lo: &[u8], hi: &[u8]) {
        self.announced.hear(self.alloc, top, lo, hi);
    }
}

impl<F: ReadAt + Drop> PackSource<F> {
    ghost use Rattle.node_pack.specs.Sources.{IsOver, Knows, root_in};
    ghost use Rattle.node_pack.specs.internal.Announcing.{hints_in};
    ghost use Rattle.node_pack.specs.internal.Stepping.{IsBroughtAt, new_places_of};
    ghost use Rattle.node_pack.specs.declared.place.Place.{Place};

    /// Brings what the kept hints lead to. A fault isn't told: the hints are dropped, and the later read tells it.
    pub(crate) fn bring_announced(&mut self)
        ensures dropped { hints_in self.new.ahead.announced ≡ [] }
        ensures root { root_in self.new ≡ root_in self.old }
        ensures keeps { (key : List ℕ) → Knows self.old key → Knows self.new key }
        ensures over { (place_of : List ℕ → Option Place) (root : List ℕ) (nodes : List Kept)
            → IsOver F.reads place_of self.old root nodes
            → IsOver F.reads place_of self.new root nodes }
    {
        if self.ahead.announced.is_empty() {
            return;
        }
        let hints = self.ahead.announced.take(self.ahead.alloc);
        match self.go_down(hints.as_slice()) {
            Ok(()) | Err(_) => {}
        }
    }

    /// Brings what these hints lead to, level by level.
    fn go_down(&mut self, hints: &[Hint]) -> Result<(), ReadFault>
        ensures announced { self.new.ahead.announced ≡ self.old.ahead.announced }
        ensures root { root_in self.new ≡ root_in self.old }
        ensures keeps { (key : List ℕ) → Knows self.old key → Knows self.new key }
        ensures over { (place_of : List ℕ → Option Place) (root : List ℕ) (nodes : List Kept)
            → IsOver F.reads place_of self.old root nodes
            → IsOver F.reads place_of self.new root nodes }
    {
        let mut level = Vec::new(self.ahead.alloc);
        add_tops(hints, &mut level)?;
        let mut left = INNER_BYTES;
        for _ in 0..LEVELS {
            if level.is_empty() {
                return Ok(());
            }
            level.sort_unstable_by_key(|step: &Step<'_>| step.key);
            self.expect_level(level.as_slice())?;
            level = self.open_level(level.as_slice(), &mut left)?;
        }
        Ok(())
    }

    /// Says which records of this level will be read, each once and none that was brought before, and remembers them.
    fn expect_level(&mut self, level: &[Step<'_>]) -> Result<(), ReadFault>
        ensures marked { OnOk result ((place : Place)
            → Contains
            (new_places_of self.old.size self.old.places self.old.ahead.brought level.now) place
            → IsBroughtAt self.new.ahead.brought place.at) }
        ensures announced { self.new.ahead.announced ≡ self.old.ahead.announced }
        ensures root { root_in self.new ≡ root_in self.old }
        ensures keeps { (key : List ℕ) → Knows self.old key → Knows self.new key }
        ensures over { (place_of : List ℕ → Option Place) (root : List ℕ) (nodes : List Kept)
            → IsOver F.reads place_of self.old root nodes
            → IsOver F.reads place_of self.new root nodes }
    {
        let places = new_places(
            self.ahead.alloc,
            level,
            self.size,
            &self.places,
            &self.ahead.brought,
        )?;
        tell(&mut self.file, places.as_slice());
        mark(places.as_slice(), &mut self.ahead.brought)?;
        Ok(())
    }

    /// Reads the nodes of this level that aren't known to be leaves, and gives those below them that the hints lead to. Nodes
    /// with one digest have to stand side by side: each is read once.
    fn open_level<'h>(
        &mut self,
        level: &[Step<'h>],
        left: &mut u64,
    ) -> Result<Vec<Step<'h>>, ReadFault>
        ensures announced { self.new.ahead.announced ≡ self.old.ahead.announced }
        ensures root { root_in self.new ≡ root_in self.old }
        ensures keeps { (key : List ℕ) → Knows self.old key → Knows self.new key }
        ensures over { (place_of : List ℕ → Option Place) (root : List ℕ) (nodes : List Kept)
            → IsOver F.reads place_of self.old root nodes
            → IsOver F.reads place_of self.new root nodes }
    {
        let mut next = Vec::new(self.ahead.alloc);
        let mut opened = None;
        for step in level {
            if !step.is_leaf && next.len() < LEVEL_NODES {
                if opened != Some(step.key) {
                    self.open_node(&step.key, left)?;
                    opened = Some(step.key);
                }
                add_below(self.buffer.as_slice(), step, &mut next)?;
            }
        }
        Ok(next)
    }

    /// Reads the record of an inner node with this digest, and remembers where its children stand. Of a node whose place isn't
    /// known it reads nothing.
    fn open_node(&mut self, key: &Digest, left: &mut u64) -> Result<(), ReadFault>
        ensures announced { self.new.ahead.announced ≡ self.old.ahead.announced }
        ensures root { root_in self.new ≡ root_in self.old }
        ensures keeps { (key : List ℕ) → Knows self.old key → Knows self.new key }
        ensures over { (place_of : List ℕ → Option Place) (root : List ℕ) (nodes : List Kept)
            → IsOver F.reads place_of self.old root nodes
            → IsOver F.reads place_of self.new root nodes }
    {
        let Some(place) = self.places.get(key) else {
            self.buffer.clear();
            return Ok(());
        };
        let place = *place;
        let len = u64::from(place.len);
        if len > *left {
            return Err(ReadFault::Memory);
        }
        *left -= len;
        self.bring(place, INNER_LIMIT)
    }
}
