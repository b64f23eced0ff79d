//! Refusals of lines and of files.

ghost use Rattle.std.specs.Prelude.{◌≡◌, Some};
ghost use Rattle.opl_codec.specs.Refusals.{load_text};
ghost use Rattle.opl_codec.specs.declared.cause.OplCause.TheVariants as causes;

use crate::cause::OplCause;
use std::alloc::AllocError;
use std::fmt;
use thiserror::Error;

/// Why a line isn't read: the cause, and the place in the line.
///
/// Its text is the code and the place, as `O9 byte 8`. Out of memory is at byte 0.
#[derive(Clone, Copy, Debug, PartialEq, Eq, Error)]
#[error("{cause} byte {byte}")]
pub struct OplFault {
    /// Why it isn't read.
    pub cause: OplCause,
    /// The place in the line, in bytes from 0.
    pub byte: usize,
}

/// Why a file isn't read: the line, and the fault there.
///
/// Its text is the code, the line and the place, as `O9 line 1 byte 8`. Out of memory is at line 0
/// and byte 0, and its text is `no memory`.
#[derive(Clone, Copy, Debug, PartialEq, Eq)]
pub struct LoadFault {
    /// The line, from 1.
    pub line: u64,
    /// The fault of that line.
    pub fault: OplFault,
}

impl LoadFault {
    /// The cause at byte 0 of this line.
    pub(crate) fn at(line: u64, cause: OplCause) -> LoadFault
        ensures { result ≡ record { line = line; fault = record { cause = cause; byte = 0 } } }
    {
        LoadFault {
            line,
            fault: OplFault { cause, byte: 0 },
        }
    }

    /// Out of memory, at line 0 and byte 0.
    pub(crate) fn memory() -> LoadFault
        ensures { result ≡ record { line = 0; fault = record { cause = OplCause.Memory; byte = 0 } } }
    {
        LoadFault::at(0, OplCause::Memory)
    }

    /// The same at another byte.
    pub(crate) fn at_byte(self, byte: usize) -> LoadFault
        ensures { result ≡ record { line = self.line; fault = record { cause = self.fault.cause; byte = byte } } }
    {
        LoadFault {
            line: self.line,
            fault: OplFault {
                cause: self.fault.cause,
                byte,
            },
        }
    }
}

impl From<AllocError> for LoadFault {
    ghost from_gives = { λ _ e. e ≡ record { line = 0; fault = record { cause = causes.Memory; byte = 0 } } };

    fn from(_error: AllocError) -> LoadFault {
        LoadFault::memory()
    }
}

impl fmt::Display for LoadFault {
    ghost output = { λ fault. Some (load_text fault) };

    fn fmt<W: fmt::Write>(&self, f: &mut fmt::Formatter<W>) -> fmt::Result {
        let cause = self.fault.cause;
        if cause == OplCause::Memory {
            return write!(f, "{cause}");
        }
        let line = self.line;
        let byte = self.fault.byte;
        write!(f, "{cause} line {line} byte {byte}")
    }
}

impl std::error::Error for LoadFault {}
