//! Why the text of a field isn't its value.

ghost use Rattle.std.specs.Prelude.{◌≡◌};

use std::alloc::{AllocError, AllocFailed};

/// Why the text after a field's letter isn't its value.
#[derive(Clone, Copy)]
pub(crate) enum ValueFault {
    /// It isn't of the field's form.
    Form,
    /// A bad escape, so many bytes after the letter.
    Escape(usize),
    /// A node of a way has a location.
    NodeLocation,
    /// It is over a limit, or out of its range.
    Limit,
    /// Out of memory.
    Memory,
}

impl From<AllocError> for ValueFault {
    ghost use Rattle.opl_codec.specs.declared.value_fault.ValueFault.TheVariants.{Memory};

    ghost from_gives = { λ _ fault. fault ≡ Memory };

    fn from(_error: AllocError) -> ValueFault {
        ValueFault::Memory
    }
}

impl<T: Drop> From<AllocFailed<T>> for ValueFault {
    ghost use Rattle.opl_codec.specs.declared.value_fault.ValueFault.TheVariants.{Memory};

    ghost from_gives = { λ _ fault. fault ≡ Memory };

    fn from(_error: AllocFailed<T>) -> ValueFault {
        ValueFault::Memory
    }
}
