//! Writers that may keep a write waiting.

ghost use Rattle.std.specs.Io.KnownBytes.{Keeps};

use std::io::Write;

/// A writer that may keep a write waiting until somebody reads, as a pipe does, and that can be asked about it.
pub trait ReadyWriter: Write {
    /// Whether a write of at most 4,096 bytes is taken at once.
    fn is_ready(&mut self) -> bool
        ensures kept { Keeps (Self.contents self.old) (Self.contents self.new) };
}

impl<W: ReadyWriter> ReadyWriter for &mut W {
    fn is_ready(&mut self) -> bool {
        (**self).is_ready()
    }
}

/// A vector never keeps a write waiting.
impl ReadyWriter for Vec<u8> {
    fn is_ready(&mut self) -> bool {
        true
    }
}
