//! Sinks of answers.

ghost use Rattle.std.specs.Prelude.{◌≡◌, ◌≤◌, ◌++◌, ℕ, Bool, List, [], length, take, true, OnErr, OnOk};
ghost use Rattle.ql_eval.specs.Lengths.{saturating_u64};

use std::alloc::AllocError;

/// Where an answer is written: a text that grows at its end, or something that compares it with a text that
/// is expected and keeps none of it. So contracts say of which texts a sink can stand for, and not which it
/// holds.
pub trait Sink {
    /// The sink can stand for this text.
    ghost stands: { Self → List ℕ → Type 0 };

    /// What the sink keeps whatever is written, such as the text that is expected.
    ghost kept: { Self → List ℕ };

    /// Whether the sink takes memory for what is written to it, which may be refused.
    ghost takes_memory: { Bool };

    /// Writes these bytes at the end of the text. Refused where memory runs out, and so only by a sink that takes
    /// memory; then the text is what it was.
    fn put(&mut self, bytes: &[u8]) -> Result<(), AllocError>
        ensures kept { kept self.new ≡ kept self.old }
        ensures put { OnOk result
            ((text : List ℕ) → stands self.old text → stands self.new (text ++ bytes.now)) }
        ensures refused { OnErr result
            ((text : List ℕ) → stands self.old text → stands self.new text) }
        ensures memory { OnErr result (takes_memory ≡ true) };

    /// Cuts a text that has this many bytes to its first ones. Of a shorter text nothing is said. It takes no
    /// memory.
    fn cut(&mut self, len: u64)
        ensures kept { kept self.new ≡ kept self.old }
        ensures cut { (text : List ℕ) → stands self.old text → len ≤ length text
            → stands self.new (take len text) };

    /// The text's length in bytes, or the greatest u64 where it is longer.
    fn len(&self) -> u64
        ensures { (text : List ℕ) → stands self.now text → result ≡ saturating_u64 (length text) };
}

/// Holds the text.
impl Sink for Vec<u8> {
    ghost stands = { λ v text. v.items ≡ text };

    ghost kept = { λ v. [] };

    ghost takes_memory = { true };

    fn put(&mut self, bytes: &[u8]) -> Result<(), AllocError> {
        self.extend_from_slice(bytes)
    }

    fn cut(&mut self, len: u64) {
        self.truncate(len as usize);
    }

    fn len(&self) -> u64 {
        self.as_slice().len() as u64
    }
}
