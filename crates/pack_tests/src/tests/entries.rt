//! Entries that are sorted through stores in memory, which may refuse each call in turn.

ghost use Rattle.std.specs.Prelude.{◌≡◌, ◌≤◌, ◌<◌, ◌+◌, ◌++◌, ◌∷◌, [], IsOk, List, OnOk, drop, false, length, map, take, true};
ghost use Rattle.tree_node.specs.Nodes.{Binding};
ghost use Rattle.tree_node.specs.declared.tree.Tree.TheVariants.{Objects, Tags, Cells, Backs};

use entry_sort::{EntryFault, EntrySink, EntrySorter, SinkFault, sort_entries};
use external_sort::SortFault;
use opl_codec::{OplCause, read_set};
use osm_index::entries_of;
use osm_model::ObjectSet;
use pack_devices::KeptRunsMaker;
use std::alloc::{AllocError, Global};
use std::test::Fail;
use tree_node::{Item, Tree};

/// An entry that was taken.
#[derive(Drop)]
struct Pair {
    key: Vec<u8>,
    value: Vec<u8>,
}

/// Keeps the entries of each tree, up to a number of all, after which it refuses. It refuses entries of a tree that it
/// wasn't told comes next.
#[derive(Drop)]
struct Taken {
    alloc: Global,
    objects: Vec<Pair>,
    tags: Vec<Pair>,
    cells: Vec<Pair>,
    backs: Vec<Pair>,
    begun: Option<(Tree, u64)>,
    calls: u64,
}

impl Taken {
    fn new(alloc: Global, calls: u64) -> Taken {
        Taken {
            alloc,
            objects: Vec::new(alloc),
            tags: Vec::new(alloc),
            cells: Vec::new(alloc),
            backs: Vec::new(alloc),
            begun: None,
            calls,
        }
    }

    fn is_begun(&self, tree: Tree) -> bool {
        match self.begun {
            Some((begun, _)) => begun == tree,
            None => false,
        }
    }

    fn of_tree(&self, tree: Tree) -> &[Pair] {
        match tree {
            Tree::Objects => &self.objects,
            Tree::Tags => &self.tags,
            Tree::Cells => &self.cells,
            Tree::Backs => &self.backs,
        }
    }
}

impl EntrySink for Taken {
    ghost taken = { λ s tree. elim tree [
      | Objects ↦ map (λ p. record { key = p.key.items; value = p.value.items }) s.objects.items
      | Tags ↦ map (λ p. record { key = p.key.items; value = p.value.items }) s.tags.items
      | Cells ↦ map (λ p. record { key = p.key.items; value = p.value.items }) s.cells.items
      | Backs ↦ map (λ p. record { key = p.key.items; value = p.value.items }) s.backs.items
    ] };

    ghost may_refuse = { true };

    ghost is_same = { λ _ _. Unit {0} };

    ghost itself = { λ _. tt };

    ghost chained = { λ _ _ _ _ _. tt };

    fn begin(&mut self, tree: Tree, objects: u64) {
        self.begun = Some((tree, objects));
    }

    fn take(&mut self, tree: Tree, key: &[u8], value: &[u8]) -> Result<(), SinkFault> {
        if !self.is_begun(tree) {
            return Err(SinkFault::Device);
        }
        let Some(calls) = self.calls.checked_sub(1) else {
            return Err(SinkFault::Device);
        };
        self.calls = calls;
        let pair = Pair {
            key: Vec::from_slice(self.alloc, key)?,
            value: Vec::from_slice(self.alloc, value)?,
        };
        match tree {
            Tree::Objects => self.objects.push(pair)?,
            Tree::Tags => self.tags.push(pair)?,
            Tree::Cells => self.cells.push(pair)?,
            Tree::Backs => self.backs.push(pair)?,
        }
        Ok(())
    }
}

const TREES: [Tree; 4] = [Tree::Objects, Tree::Tags, Tree::Cells, Tree::Backs];

/// Three sets whose objects differ, one of each kind: the way lists one node twice.
const FIRST: &[u8] = b"w7 v1 Thighway=path Nn1,n2,n1\nn2 v1 Tname=b x1.5 y-2\n";

const SECOND: &[u8] = b"n1 v1 Tname=a,natural=tree x0 y0\n";

const THIRD: &[u8] = b"r3 v1 Ttype=route Mw7@outer,n1@,n1@stop\nn-1 v1 x1 y1\n";

const WHOLE: &[u8] =
    b"w7 v1 Thighway=path Nn1,n2,n1\nn2 v1 Tname=b x1.5 y-2\nn1 v1 Tname=a,natural=tree x0 y0\nr3 v1 Ttype=route Mw7@outer,n1@,n1@stop\nn-1 v1 x1 y1\n";

/// Why a test's run ended early.
#[derive(Clone, Copy, Debug, PartialEq, Eq)]
enum Ended {
    Unread,
    Sort(SortFault),
    Sink(SinkFault),
}

impl From<AllocError> for Ended {
    fn from(_error: AllocError) -> Ended {
        Ended::Sort(SortFault::Memory)
    }
}

fn set_of(alloc: Global, text: &[u8]) -> Result<ObjectSet, Ended> {
    let mut reader = text;
    match read_set(alloc, &mut reader) {
        Ok(set) => Ok(set),
        Err(load) if load.line == 0 => Err(Ended::Sort(SortFault::Memory)),
        Err(_) => Err(Ended::Unread),
    }
}

/// The entries of the three sets, sorted with so much memory.
fn sort(
    alloc: Global,
    memory: usize,
    refusing: usize,
    calls: u64,
    sink_calls: u64,
) -> Result<Taken, Ended> {
    let mut maker = KeptRunsMaker::new(alloc, refusing, calls);
    let mut sorter = match EntrySorter::new(alloc, &mut maker, memory) {
        Ok(sorter) => sorter,
        Err(_) => return Err(Ended::Sort(SortFault::Device)),
    };
    for text in [FIRST, SECOND, THIRD] {
        let set = set_of(alloc, text)?;
        match sorter.add(alloc, &set) {
            Ok(()) => {}
            Err(fault) => return Err(Ended::Sort(fault)),
        }
    }
    let mut taken = Taken::new(alloc, sink_calls);
    match sorter.give(alloc, &mut taken) {
        Ok(()) => Ok(taken),
        Err(fault) => Err(Ended::Sink(fault)),
    }
}

/// Whether what was taken is these entries.
fn are_same(pairs: &[Pair], entries: &[Item<'_>]) -> bool {
    if pairs.len() != entries.len() {
        return false;
    }
    for (pair, entry) in pairs.iter().zip(entries) {
        if pair.key.as_slice() != entry.key || pair.value.as_slice() != entry.value {
            return false;
        }
    }
    true
}

/// Whether these are the entries of the trees of the whole set, as they are listed in memory.
fn is_whole(alloc: Global, taken: &Taken) -> Result<bool, Ended> {
    let set = set_of(alloc, WHOLE)?;
    for tree in TREES {
        let list = entries_of(alloc, &set, tree)?;
        let entries = list.sorted(alloc)?;
        if !are_same(taken.of_tree(tree), &entries) {
            return Ok(false);
        }
    }
    Ok(true)
}

/// With memory for one record, for a few and for all.
#[test]
fn sorts_as_the_whole_set(rt: HostRuntime) {
    for memory in [0, 400, 1_000_000] {
        match sort(rt.alloc(), memory, 9, 0, 1000) {
            Ok(taken) => assert!(rt; is_whole(rt.alloc(), &taken) == Ok(true)),
            Err(_) => assert!(rt; false),
        }
    }
}

/// By hand: a node's entry in the back tree comes once, though the way lists the node twice.
#[test]
fn gives_each_once(rt: HostRuntime) {
    let Ok(taken) = sort(rt.alloc(), 0, 9, 0, 1000) else {
        assert!(rt; false);
        return;
    };
    assert!(rt; taken.of_tree(Tree::Objects).len() == 5);
    assert!(rt; taken.of_tree(Tree::Tags).len() == 5);
    assert!(rt; taken.of_tree(Tree::Cells).len() == 3);
    let backs = taken.of_tree(Tree::Backs);
    assert!(rt; backs.len() == 4);
    assert!(rt; taken.begun == Some((Tree::Backs, 5)));
    let node_1 = [1, 128, 0, 0, 0, 0, 0, 0, 1];
    let way_7 = [2, 128, 0, 0, 0, 0, 0, 0, 7];
    let relation_3 = [3, 128, 0, 0, 0, 0, 0, 0, 3];
    assert!(rt; backs[0].key.starts_with(&node_1) && backs[0].key.ends_with(&way_7));
    assert!(rt; backs[1].key.starts_with(&node_1) && backs[1].key.ends_with(&relation_3));
    assert!(rt; backs[3].key.starts_with(&way_7) && backs[3].key.ends_with(&relation_3));
}

/// Whichever call a store refuses, the fault comes, and never a part of the entries.
#[test]
fn tells_refused_calls(rt: HostRuntime) {
    for refusing in 0..4 {
        let mut done = false;
        for calls in 0..60 {
            match sort(rt.alloc(), 0, refusing, calls, 1000) {
                Ok(taken) => {
                    assert!(rt; is_whole(rt.alloc(), &taken) == Ok(true));
                    done = true;
                }
                Err(fault) => assert!(rt;
                    !done
                        && (fault == Ended::Sort(SortFault::Device)
                            || fault == Ended::Sink(SinkFault::Device))
                ),
            }
        }
        assert!(rt; done);
    }
}

/// So it is where the sink refuses.
#[test]
fn tells_what_the_sink_refuses(rt: HostRuntime) {
    for calls in 0..17 {
        match sort(rt.alloc(), 0, 9, 0, calls) {
            Ok(_) => assert!(rt; false),
            Err(fault) => assert!(rt; fault == Ended::Sink(SinkFault::Device)),
        }
    }
    assert!(rt; sort(rt.alloc(), 0, 9, 0, 17).is_ok());
}

/// Out of memory, in a store too, or the whole result: also where an allocation is refused (tests/system).
#[test]
fn sorts_within_memory(rt: HostRuntime) {
    match sort(rt.alloc(), 0, 9, 0, 1000) {
        Ok(taken) => match is_whole(rt.alloc(), &taken) {
            Ok(whole) => assert!(rt; whole),
            Err(fault) => assert!(rt; fault == Ended::Sort(SortFault::Memory)),
        },
        Err(fault) => assert!(rt;
            fault != Ended::Sort(SortFault::TooLong)
                && fault != Ended::Sink(SinkFault::TooMany)
                && fault != Ended::Unread
        ),
    }
}

/// The entries of a file, read with so much memory.
fn sort_file(
    alloc: Global,
    text: &[u8],
    memory: usize,
    refusing: usize,
    calls: u64,
) -> Result<Taken, EntryFault> {
    let mut maker = KeptRunsMaker::new(alloc, refusing, calls);
    let mut taken = Taken::new(alloc, 1000);
    let mut reader = text;
    match sort_entries(alloc, &mut reader, &mut maker, memory, &mut taken) {
        Ok(()) => Ok(taken),
        Err(fault) => Err(fault),
    }
}

/// The place that a refusal names, and whether it is that of a repeated object.
fn place_of(sorted: Result<Taken, EntryFault>) -> (u64, OplCause) {
    match sorted {
        Err(EntryFault::Load(load)) => (load.line, load.fault.cause),
        _ => (0, OplCause::Memory),
    }
}

/// A file whose references don't rise, with a chunk an object and with one chunk.
#[test]
fn sorts_a_file(rt: HostRuntime) {
    for memory in [0, 5000, 1_000_000] {
        match sort_file(rt.alloc(), WHOLE, memory, 9, 0) {
            Ok(taken) => assert!(rt; is_whole(rt.alloc(), &taken) == Ok(true)),
            Err(_) => assert!(rt; false),
        }
    }
}

/// By hand, with memory for one reference: two are written as runs, an append and an end for each. They are read back
/// where they don't rise alone.
#[test]
fn reads_no_rising_references_back(rt: HostRuntime) {
    let rising = b"n1 x0 y0\nn2 x0 y0\nn3 x0 y0\n";
    assert!(rt; sort_file(rt.alloc(), rising, 0, 4, 5).is_ok());
    let falling = b"n3 x0 y0\nn2 x0 y0\nn1 x0 y0\n";
    let refused = sort_file(rt.alloc(), falling, 0, 4, 5);
    assert!(rt; matches!(refused, Err(EntryFault::Device)));
    assert!(rt; sort_file(rt.alloc(), falling, 0, 4, 100).is_ok());
}

/// The first line at fault, by hand: repeats at first place, across chunks and within one, before and after a line that
/// can't be read, and a line that deletes an object.
#[test]
fn tells_the_first_line_at_fault(rt: HostRuntime) {
    for memory in [0, 1_000_000] {
        let twice = b"n1 x0 y0\nn1 x0 y0\nn2 x0 y0\n";
        let place = place_of(sort_file(rt.alloc(), twice, memory, 9, 0));
        assert!(rt; place == (2, OplCause::OutsideModel));
        let apart = b"n5 x0 y0\n# none\nn3 x0 y0\nw3\nn3 x0 y0\nn5 x0 y0\nn3 x0 y0\n";
        let place = place_of(sort_file(rt.alloc(), apart, memory, 9, 0));
        assert!(rt; place == (5, OplCause::OutsideModel));
        let before = b"n5 x0 y0\nn3 x0 y0\nn5 x0 y0\nq1\n";
        let place = place_of(sort_file(rt.alloc(), before, memory, 9, 0));
        assert!(rt; place == (3, OplCause::OutsideModel));
        let after = b"n5 x0 y0\nq1\nn5 x0 y0\n";
        let place = place_of(sort_file(rt.alloc(), after, memory, 9, 0));
        assert!(rt; place == (2, OplCause::UnknownObject));
        let deleted = b"n5 x0 y0\nn6 dD\n";
        let place = place_of(sort_file(rt.alloc(), deleted, memory, 9, 0));
        assert!(rt; place == (2, OplCause::Deleted));
    }
}

/// Whichever call one of the five stores refuses, the fault comes, and never a part of the entries.
#[test]
fn tells_refused_calls_of_a_file(rt: HostRuntime) {
    for refusing in 0..5 {
        let mut done = false;
        for calls in 0..60 {
            match sort_file(rt.alloc(), WHOLE, 0, refusing, calls) {
                Ok(taken) => {
                    assert!(rt; is_whole(rt.alloc(), &taken) == Ok(true));
                    done = true;
                }
                Err(fault) => assert!(rt; !done && fault == EntryFault::Device),
            }
        }
        assert!(rt; done);
    }
}

/// Out of memory, in a store too, or the whole result: also where an allocation is refused (tests/system).
#[test]
fn sorts_a_file_within_memory(rt: HostRuntime) {
    match sort_file(rt.alloc(), WHOLE, 0, 9, 0) {
        Ok(taken) => match is_whole(rt.alloc(), &taken) {
            Ok(whole) => assert!(rt; whole),
            Err(fault) => assert!(rt; fault == Ended::Sort(SortFault::Memory)),
        },
        Err(fault) => assert!(rt; fault == EntryFault::Memory || fault == EntryFault::Device),
    }
}
