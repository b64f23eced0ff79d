//! Where connections come from.

ghost use Rattle.std.specs.Prelude.{◌≡◌, ◌⊎◌, ℕ, IfErr, IfSome, OnErr, OnOk, Option, Some, suc};

use osm_commands::CommandFault;
use std::io::{Read, Write};

/// Accepts one connection after the other, each as a reader and a writer of its own.
pub trait Listener {
    /// The reading end of a connection.
    type Reader: Read + Drop;

    /// The writing end of a connection.
    type Writer: Write + Drop;

    /// How many connections it has accepted, where it tells.
    ghost accepted: { Self → Option ℕ };

    /// Waits for the next connection. Refused with `Device` where none can be taken, with `Memory` where memory
    /// runs out.
    fn accept(&mut self) -> Result<(Self::Reader, Self::Writer), CommandFault>
        ensures one_more { OnOk result (IfSome (accepted self.old)
            (λ n. accepted self.new ≡ Some (suc n))) }
        ensures none { OnErr result (accepted self.new ≡ accepted self.old) }
        ensures outside { IfErr result (λ fault. (fault ≡ CommandFault.Memory)
            ⊎ (fault ≡ CommandFault.Device)) };

    /// Closes a connection, so that what was written to it still arrives.
    fn close(&mut self, reader: Self::Reader, writer: Self::Writer)
        ensures { accepted self.new ≡ accepted self.old };
}
