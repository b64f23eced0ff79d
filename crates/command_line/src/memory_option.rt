//! The option `--memory BYTES`, a limit on what is held of a set while it is packed.

ghost use Rattle.std.specs.Prelude.{◌≡◌, codes};
ghost use Rattle.clap.specs.Words.{found_of, one_of, rows_of};
ghost use Rattle.command_line.specs.MemoryOption.{memory_rule};
ghost use Rattle.command_line.specs.Numbers.{IsNumber};
ghost use Rattle.command_line.specs.internal.Commands.{argument_rule};

use crate::arguments::{Argument, Place, Value};
use clap::ArgMatches;

const MEMORY: &str = "memory";

const MEMORY_HELP: &str =
    "Most bytes of the set that are held in memory at a time; 1073741824 if it isn't given";

/// The bytes where the words say none: 1 GiB.
const USUAL_MEMORY: u64 = 1_073_741_824;

/// The option, as `clap` is told of it.
pub(crate) fn memory_option() -> Argument
    ensures { argument_rule result ≡ memory_rule }
{
    Argument {
        name: MEMORY,
        help: MEMORY_HELP,
        place: Place::Option {
            value_name: "BYTES",
        },
        value: Value::U64,
    }
}

/// The bytes in the matches, 1 GiB where they have none.
pub(crate) fn memory_of(matches: &ArgMatches<'_>) -> u64
    ensures { IsNumber 64 1073741824 (one_of (codes "memory") (rows_of (found_of matches.now))) result }
{
    matches.get_one::<u64>(MEMORY).unwrap_or(USUAL_MEMORY)
}
