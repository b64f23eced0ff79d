//! The bytes of responses, in chunks.

ghost use Rattle.std.specs.Prelude.{◌≡◌, ◌++◌, ◌<◌, ◌≤◌, ◌↔◌, IfOk, IsTrue, OnErr, OnOk, [], length};
ghost use Rattle.http_messages.specs.ResponseParts.{parts_of, response_of};
ghost use Rattle.http_messages.specs.ResponseTexts.{response_text};
ghost use Rattle.osm_gate.specs.internal.ChunkLists.{AreSome, IsLastOf, whole};
ghost use Rattle.osm_gate.specs.internal.Heads.{head_bytes};

use crate::limits::LARGE_ANSWER;
use http_messages::{ResponseHead, append_head, append_response};
use std::alloc::{AllocError, Global};
use std::collections::VecDeque;
use std::marker::Model;
use std::mem;

/// The bytes of responses, in chunks that are written one after the other. Contracts see it as all of these bytes.
///
/// A large answer is a chunk of its own: it is moved, and not copied. All else is copied to the chunk that is last.
#[derive(Drop)]
pub struct Chunks {
    alloc: Global,
    /// The chunks before the last. None of them is empty.
    full: VecDeque<Vec<u8>>,
    /// The last chunk. It may be empty.
    last: Vec<u8>,
}

impl Model for Chunks {
    ghost use Rattle.std.specs.Prelude.{List, ℕ};
    ghost use Rattle.osm_gate.specs.internal.ChunkLists.{AreSome, whole};

    ghost Value = { List ℕ };

    ghost view = { λ chunks. whole chunks.full.items chunks.last.items };

    ghost invariant = { λ chunks. AreSome chunks.full.items };
}

impl Chunks {
    /// No bytes. It takes no memory.
    pub fn new(alloc: Global) -> Chunks
        ensures { result ≡ [] }
    {
        Chunks {
            alloc,
            full: VecDeque::new(alloc),
            last: Vec::new(alloc),
        }
    }

    /// Appends a copy of these bytes. Refused only where memory runs out.
    pub fn push(&mut self, bytes: &[u8]) -> Result<(), AllocError>
        ensures pushed { OnOk result (self.new ≡ self.old ++ bytes.now) }
        ensures unchanged { OnErr result (self.new ≡ self.old) }
    {
        self.last.extend_from_slice(bytes)
    }

    /// Appends these bytes: more than 64 MiB (67,108,864 bytes) as a chunk of their own, else as a copy. Refused only
    /// where memory runs out.
    pub fn push_owned(&mut self, bytes: Vec<u8>) -> Result<(), AllocError>
        ensures pushed { OnOk result (self.new ≡ self.old ++ bytes.items) }
        ensures unchanged { OnErr result (self.new ≡ self.old) }
    {
        append_owned(self.alloc, &mut self.full, &mut self.last, bytes)
    }

    /// Appends these bytes as a chunk of their own, however few they are: none of them is copied. Refused only where
    /// memory runs out.
    pub fn push_chunk(&mut self, bytes: Vec<u8>) -> Result<(), AllocError>
        ensures pushed { OnOk result (self.new ≡ self.old ++ bytes.items) }
        ensures unchanged { OnErr result (self.new ≡ self.old) }
    {
        append_chunk(self.alloc, &mut self.full, &mut self.last, bytes)
    }

    /// Appends a response with this head, whose body is made of copies of these parts. Refused only where memory runs
    /// out.
    pub(crate) fn push_response(
        &mut self,
        head: &ResponseHead<'_>,
        body: &[&[u8]],
    ) -> Result<(), AllocError>
        ensures pushed { OnOk result (self.new ≡ self.old
            ++ response_text (response_of head.now body.now)) }
        ensures unchanged { OnErr result (self.new ≡ self.old) }
    {
        append_response(self.alloc, &mut self.last, head, body)
    }

    /// Appends the head of a response whose body, which comes next, has so many bytes. Refused only where memory runs
    /// out.
    pub(crate) fn push_head(
        &mut self,
        head: &ResponseHead<'_>,
        body_len: usize,
    ) -> Result<(), AllocError>
        ensures pushed { OnOk result (self.new ≡ self.old
            ++ head_bytes (parts_of head.now) body_len) }
        ensures unchanged { OnErr result (self.new ≡ self.old) }
    {
        append_head(self.alloc, &mut self.last, head, body_len)
    }

    /// Takes the first chunk away. It is empty only where there are no bytes. It takes no memory.
    pub fn take_first(&mut self) -> Vec<u8>
        ensures front { self.old ≡ result.items ++ self.new }
        ensures some { 0 < length self.old → 0 < length result.items }
    {
        match self.full.pop_front() {
            Some(chunk) => chunk,
            None => mem::replace(&mut self.last, Vec::new(self.alloc)),
        }
    }

    /// All bytes in one vector. Where there is one chunk it is that, and takes no memory. Refused only where memory runs
    /// out.
    pub fn into_vec(self) -> Result<Vec<u8>, AllocError>
        ensures { IfOk result (λ whole. whole.items ≡ self) }
    {
        let mut later = self;
        let mut whole = later.take_first();
        loop {
            let chunk = later.take_first();
            if chunk.is_empty() {
                return Ok(whole);
            }
            whole.extend_from_slice(&chunk)?;
        }
    }
}

/// Whether bytes are so many that they are moved, and not copied.
pub(crate) fn is_large(bytes: &[u8]) -> bool
    ensures { IsTrue result ↔ (67108864 < length bytes.now) }
{
    bytes.len() > LARGE_ANSWER
}

/// Appends bytes: a large vector is moved to the full chunks, and of any other the bytes are copied to the last one.
fn append_owned(
    alloc: Global,
    full: &mut VecDeque<Vec<u8>>,
    last: &mut Vec<u8>,
    bytes: Vec<u8>,
) -> Result<(), AllocError>
    requires { AreSome full.old.items }
    ensures bytes { OnOk result (whole full.new.items last.new.items
        ≡ whole full.old.items last.old.items ++ bytes.items) }
    ensures unchanged { OnErr result (whole full.new.items last.new.items
        ≡ whole full.old.items last.old.items) }
    ensures some { AreSome full.new.items }
    ensures moved { 67108864 < length bytes.items → OnOk result (IsLastOf full.new.items bytes) }
    ensures copied { length bytes.items ≤ 67108864 → full.new.items ≡ full.old.items }
{
    if is_large(&bytes) {
        append_chunk(alloc, full, last, bytes)
    } else {
        last.extend_from_slice(&bytes)
    }
}

/// Moves a vector to the full chunks, if it isn't empty.
fn append_chunk(
    alloc: Global,
    full: &mut VecDeque<Vec<u8>>,
    last: &mut Vec<u8>,
    bytes: Vec<u8>,
) -> Result<(), AllocError>
    requires { AreSome full.old.items }
    ensures bytes { OnOk result (whole full.new.items last.new.items
        ≡ whole full.old.items last.old.items ++ bytes.items) }
    ensures unchanged { OnErr result (whole full.new.items last.new.items
        ≡ whole full.old.items last.old.items) }
    ensures some { AreSome full.new.items }
    ensures moved { 0 < length bytes.items → OnOk result (IsLastOf full.new.items bytes) }
{
    if bytes.is_empty() {
        return Ok(());
    }
    end_chunk(alloc, full, last)?;
    full.push_back(bytes)?;
    Ok(())
}

/// Puts the last chunk to the full ones, so that the next bytes begin another.
fn end_chunk(
    alloc: Global,
    full: &mut VecDeque<Vec<u8>>,
    last: &mut Vec<u8>,
) -> Result<(), AllocError>
    requires { AreSome full.old.items }
    ensures bytes { whole full.new.items last.new.items ≡ whole full.old.items last.old.items }
    ensures some { AreSome full.new.items }
    ensures ended { OnOk result (last.new.items ≡ []) }
{
    if last.is_empty() {
        return Ok(());
    }
    full.reserve(1)?;
    let chunk = mem::replace(last, Vec::new(alloc));
    full.push_back(chunk).unwrap();
    Ok(())
}
