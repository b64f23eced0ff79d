//! Why words ask for nothing.

ghost use Rattle.std.specs.Prelude.{◌≡◌};
ghost use Rattle.command_line.specs.declared.words_fault.WordsFault.TheVariants.{Memory};

use std::alloc::AllocError;
use thiserror::Error;

/// Why the words ask for nothing. It is displayed as the program prints it.
#[derive(Debug, Drop, Error)]
pub enum WordsFault {
    /// The words are none that the command line takes, or ask for help: `clap`'s own text, which ends with
    /// its own line feed.
    #[error("{0}")]
    Usage(String),
    /// The word ROOT isn't 64 hexadecimal digits.
    #[error("bad root")]
    BadRoot,
    /// The word after `--form` is none of `opl`, `json` and `xml`.
    #[error("bad form")]
    BadForm,
    /// The word after `--edition` is neither `1` nor `2`, or it is `1` and changes are to be taken.
    #[error("bad edition")]
    BadEdition,
    /// An allocation was refused.
    #[error("no memory")]
    Memory,
}

impl From<AllocError> for WordsFault {
    ghost from_gives = { λ _ e. e ≡ Memory };

    fn from(_e: AllocError) -> WordsFault {
        WordsFault::Memory
    }
}
