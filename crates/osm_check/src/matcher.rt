//! A sink that compares.

ghost use Rattle.std.specs.Prelude.{◌≡◌, ◌+◌, ◌-◌, ◌^◌, ◌<◌, ◌≤◌, ◌++◌, ◌⊎◌, ℕ, List, [], IfSome, MatchOption, None, Some, drop, false, length};
ghost use Rattle.osm_check.specs.Matching.{IsFirstDifference, IsParted, Matches, common};

use ql_eval::Sink;
use std::alloc::AllocError;

/// Compares what is written to it with a text, and keeps none of it. No call of it takes memory.
#[derive(Drop)]
pub struct Matcher<'a> {
    expected: &'a [u8],
    /// How many bytes were written; at its greatest it stays there.
    len: u64,
    /// The first place at which they aren't as expected.
    first: Option<u64>,
    ghost within: { first ≡ None → len ≤ length expected.now },
    ghost place: { (at : ℕ) → first ≡ Some at → at ≤ length expected.now },
}

impl<'a> Matcher<'a> {
    ghost use Rattle.osm_check.specs.Matchers.{StandsFor, expected_of};

    /// Nothing was written yet.
    pub fn new(expected: &'a [u8]) -> Matcher<'a>
        ensures expected { expected_of result ≡ expected.now }
        ensures nothing { StandsFor result [] }
    {
        Matcher {
            expected,
            len: 0,
            first: None,
        }
    }

    /// The first byte, from 0, at which what was written differs from what is expected: the length of the
    /// shorter of the two, where it begins the other, and none where they are the same.
    pub fn difference(&self) -> Option<u64>
        ensures none { (text : List ℕ) → StandsFor self.now text → result ≡ None
            → text ≡ expected_of self.now }
        ensures place { (text : List ℕ) → StandsFor self.now text
            → IfSome result (IsFirstDifference text (expected_of self.now)) }
    {
        match self.first {
            Some(place) => Some(place),
            None if self.len == self.expected.len() as u64 => None,
            None => Some(self.len),
        }
    }
}

impl Sink for Matcher<'_> {
    ghost use Rattle.osm_check.specs.Matchers.{StandsFor, expected_of};

    ghost stands = { StandsFor };

    ghost kept = { expected_of };

    ghost takes_memory = { false };

    fn put(&mut self, bytes: &[u8]) -> Result<(), AllocError> {
        let first = parting(self.expected, self.len, self.first, bytes);
        self.len = self.len.saturating_add(bytes.len() as u64);
        self.first = first;
        Ok(())
    }

    fn cut(&mut self, len: u64) {
        let first = before(self.first, len);
        self.len = self.len.min(len);
        self.first = first;
    }

    fn len(&self) -> u64 {
        self.len
    }
}

/// The first place at which these bytes, after a text of this length, aren't as expected, or else the one
/// before them.
fn parting(expected: &[u8], len: u64, first: Option<u64>, bytes: &[u8]) -> Option<u64>
    requires within { first ≡ None → len ≤ length expected.now }
    requires place { (at : ℕ) → first ≡ Some at → at ≤ length expected.now }
    ensures within { result ≡ None → len + length bytes.now ≤ length expected.now }
    ensures place { (at : ℕ) → result ≡ Some at → at ≤ length expected.now }
    ensures parts { (text : List ℕ) → Matches expected.now len first text
        → IsParted expected.now (text ++ bytes.now) result }
{
    match first {
        Some(place) => Some(place),
        None => {
            let same = common_len(&expected[len as usize..], bytes);
            if same < bytes.len() {
                Some(len + same as u64)
            } else {
                None
            }
        }
    }
}

/// How many bytes at the front of the two are the same.
fn common_len(first: &[u8], second: &[u8]) -> usize
    ensures common { result ≡ common first.now second.now }
    ensures within { result ≤ length first.now }
{
    let mut len = 0;
    while len < first.len() && len < second.len() && first[len] == second[len] {
        len += 1;
    }
    len
}

/// The place, where it comes before the end.
fn before(place: Option<u64>, end: u64) -> Option<u64>
    ensures { MatchOption place (result ≡ None) (λ at. ((at < end) × (result ≡ Some at))
        ⊎ ((end ≤ at) × (result ≡ None))) }
{
    match place {
        Some(place) if place < end => Some(place),
        _ => None,
    }
}
