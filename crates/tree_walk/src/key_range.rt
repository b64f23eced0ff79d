//! Ranges of keys.

ghost use Rattle.std.specs.Option.{option_copied};
ghost use Rattle.std.specs.Prelude.{◌↔◌, IfSome, IsTrue};
ghost use Rattle.tree_node.specs.Nodes.{AreBytes};
ghost use Rattle.tree_node.specs.Order.{IsBelow};
ghost use Rattle.tree_walk.specs.Given.{GoesOnAbove, ReachesAbove};
ghost use Rattle.tree_walk.specs.internal.Reaching.{Reaches};
ghost use Rattle.tree_walk.specs.Ranges.{Begins, IsAboveLeft, IsAtMost, IsCovered, IsIn, Meets, range_of};

use tree_node::is_below;

/// The keys from `lo` to `hi`, both included; if `under` is true, also the keys that have `hi` as a prefix (this project's
/// trees, docs/FORMATS.md). Keys are byte strings of any length, in lexicographic order.
///
/// The ends are borrowed and no method allocates. Each method is linear in the bytes of the keys that it compares. A
/// range is empty exactly if it doesn't contain its own `lo`.
#[derive(Clone, Copy, Debug)]
pub struct KeyRange<'a> {
    /// No key below this one is in the range.
    pub lo: &'a [u8],
    /// No key above this one is in the range, but for those that it begins.
    pub hi: &'a [u8],
    /// Whether the keys that `hi` begins are in the range.
    pub under: bool,
}

impl<'a> KeyRange<'a> {
    /// Whether the key is in the range: it isn't below `lo`, and it isn't above `hi`, or `hi` begins
    /// it and `under` holds (this project's trees, docs/FORMATS.md).
    pub fn contains(&self, key: &[u8]) -> bool
        ensures { IsTrue result ↔ IsIn (range_of self.now) key.now }
    {
        self.starts_by(key) && self.reaches(key)
    }

    /// Whether a node meets the range: exactly where some byte string that is above `left` (any is, where
    /// there is none) and not above `greatest` is in the range. `left` is the greatest key of the
    /// node's left neighbour, or for a first child its parent's own left bound; `greatest` is the
    /// greatest key below the node (this project's trees, docs/FORMATS.md).
    ///
    /// Four comparisons decide this. They are right under two conditions: `lo` is in the range, as `contains` says (else
    /// nothing is), and `left` is below `greatest` (else no string lies between them).
    pub fn meets(&self, left: Option<&[u8]>, greatest: &[u8]) -> bool
        requires some { IsIn (range_of self.now) self.now.lo.now }
        requires rising { IsAboveLeft (option_copied left) greatest.now }
        ensures { IsTrue result
            ↔ Meets (range_of self.now) (option_copied left.entry) greatest.now }
    {
        self.starts_by(greatest) && self.goes_on_above(left)
    }

    /// Whether a node is one that a count leaves closed: exactly where it has a left bound that isn't
    /// below `lo`, and its greatest key is in the range (this project's trees, docs/FORMATS.md). Then
    /// whatever is below the node is in the range, as `covered_law` says. A node without a left
    /// bound is opened, since a key below `lo` could be there.
    pub fn covers(&self, left: Option<&[u8]>, greatest: &[u8]) -> bool
        ensures { IsTrue result
            ↔ IsCovered (range_of self.now) (option_copied left.entry) greatest.now }
    {
        match left {
            Some(left) => is_at_most(self.lo, left) && self.contains(greatest),
            None => false,
        }
    }

    /// Whether the range starts at this key or below it: the key isn't below `lo`. Where it doesn't,
    /// nothing up to the key is in the range.
    pub(crate) fn starts_by(&self, key: &[u8]) -> bool
        ensures told { IsTrue result ↔ IsAtMost self.now.lo.now key.now }
        // A slice of `u8` holds bytes; callers' proofs need it as a clause.
        ensures bytes { AreBytes self.now.lo.now }
    {
        is_at_most(self.lo, key)
    }

    /// Whether the range reaches this key: it isn't above `hi`, or `hi` begins it and `under` holds. Where
    /// it doesn't, no key above this one is in the range.
    pub(crate) fn reaches(&self, key: &[u8]) -> bool
        ensures { IsTrue result ↔ Reaches (range_of self.now) key.now }
    {
        is_at_most(key, self.hi) || (self.under && begins(self.hi, key))
    }

    /// Whether the range goes on above this left bound, as `reaches_above` tells; without a bound it does.
    /// Where it doesn't, it doesn't above any greater one.
    pub(crate) fn goes_on_above(&self, left: Option<&[u8]>) -> bool
        ensures told { IsTrue result ↔ GoesOnAbove (range_of self.now) (option_copied left.entry) }
        // A slice of `u8` holds bytes; callers' proofs need it as a clause.
        ensures bytes { IfSome (option_copied left.entry) AreBytes }
    {
        match left {
            Some(left) => self.reaches_above(left),
            None => true,
        }
    }

    /// Whether the range goes on above this bound: it is below `hi`, or `hi` begins it and `under` holds.
    fn reaches_above(&self, bound: &[u8]) -> bool
        ensures told { IsTrue result ↔ ReachesAbove (range_of self.now) bound.now }
        // A slice of `u8` holds bytes; callers' proofs need it as a clause.
        ensures bytes { AreBytes bound.now }
    {
        is_below(bound, self.hi) || (self.under && begins(self.hi, bound))
    }
}

/// Whether the low key is below the high one, or is the same.
fn is_at_most(low: &[u8], high: &[u8]) -> bool
    ensures told { IsTrue result ↔ IsAtMost low.now high.now }
    // As its type says.
    ensures bytes { AreBytes low.now }
{
    !is_below(high, low)
}

/// Whether the whole is the front and some bytes after it.
fn begins(front: &[u8], whole: &[u8]) -> bool
    ensures { IsTrue result ↔ Begins front.now whole.now }
{
    whole.starts_with(front)
}
